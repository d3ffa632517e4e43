//! The reader of the lines of a circuit text.

ghost use Rattle.std.specs.Prelude.{◌≡◌, ◌<◌, ◌≤◌, ◌∷◌, [], length, Option, Some, None, OnOk, IfOk, IfErr, true, false, if◌then◌else◌};
ghost use Rattle.std.specs.List.{list_all};
ghost use Rattle.surf_text.specs.Cuts.{words_of};
ghost use Rattle.circuit_text.specs.declared.kinds.Net.TheVariants as net;
ghost use Rattle.circuit_text.specs.declared.fault.CircuitKind.TheVariants.{UnknownNet, NetLater};
ghost use Rattle.species.specs.Texts.{is_in, index_of};
ghost use Rattle.circuit_text.specs.Names.{is_name};
ghost use Rattle.circuit_text.specs.Values.{has_two, IsNetAt};
ghost use Rattle.circuit_text.specs.Circuits.{or_many};
ghost use Rattle.circuit_text.specs.Lines.{sort_of};

use crate::fault::CircuitKind;
use crate::kinds::GateOp;
use crate::nets::Nets;
use crate::sort::{Sort, sort_line};
use crate::words::name_text;
use species::Texts;
use std::alloc::Global;
use surf_text::Words;

const MOST_NETS: u32 = 65_536;

/// Why a line was not taken.
pub(crate) enum Refusal {
    Kind(CircuitKind),
    Memory,
}

/// A reader of the lines of a text: the nets so far with their names, and the names of the outputs.
#[derive(Drop)]
pub(crate) struct Reader<'a> {
    pub(crate) names: Texts,
    pub(crate) nets: Nets,
    pub(crate) outputs: Vec<&'a str>,
    ghost few: { length names ≤ 65536 },
}

/// The text of a word that is a name.
pub(crate) fn sure_name(word: &[u8]) -> &str
    requires { is_name word.now ≡ true }
    ensures { result.now ≡ word.now }
{
    let Some(name) = name_text(word) else {
        unreachable!()
    };
    name
}

impl<'a> Reader<'a> {
    ghost use Rattle.circuit_text.specs.Steps.{state_of, start, input, output, taken, next, gate, by_fault, with_net, Takes};

    /// A reader before the first line. Takes no memory.
    pub(crate) fn new(alloc: Global) -> Reader<'a>
        ensures { state_of result ≡ start }
    {
        Reader {
            names: Texts::new(alloc),
            nets: Nets::new(alloc),
            outputs: Vec::new(alloc),
        }
    }

    /// Takes the next name of an input line.
    fn input(&mut self, name: &str) -> Result<(), Refusal>
        requires same { length self.old.names ≡ length self.old.nets }
        ensures outcome { Takes result (state_of self.new) (input (state_of self.old) name.now) }
        ensures same { OnOk result (length self.new.names ≡ length self.new.nets) }
    {
        if self.names.has(name) {
            return Err(Refusal::Kind(CircuitKind::NetTwice));
        }
        if self.nets.count() >= MOST_NETS {
            return Err(Refusal::Kind(CircuitKind::TooManyNets));
        }
        let Ok(()) = self.names.add(name) else {
            return Err(Refusal::Memory);
        };
        let Ok(()) = self.nets.push_input() else {
            return Err(Refusal::Memory);
        };
        Ok(())
    }

    /// Takes the next name of an output line.
    fn output(&mut self, all: &Texts, name: &'a str) -> Result<(), Refusal>
        requires same { length self.old.names ≡ length self.old.nets }
        ensures outcome { Takes result (state_of self.new) (output (is_in all.now) (state_of self.old) name.now) }
        ensures same { OnOk result (length self.new.names ≡ length self.new.nets) }
    {
        if !all.has(name) {
            return Err(Refusal::Kind(CircuitKind::UnknownNet));
        }
        let Ok(()) = self.outputs.push(name) else {
            return Err(Refusal::Memory);
        };
        Ok(())
    }

    /// The number of an operand, or what is wrong with it.
    fn operand(&self, all: &Texts, name: &str) -> Result<u32, CircuitKind>
        requires same { length self.now.names ≡ length self.now.nets }
        ensures ok { IfOk result (λ n. n ≡ index_of self.now.names name.now) }
        ensures below { IfOk result (λ n. n < length self.now.nets) }
        ensures defined { OnOk result (is_in self.now.names name.now ≡ true) }
        ensures missing { IfErr result (λ kind. is_in self.now.names name.now ≡ false) }
        ensures kind { IfErr result (λ kind. kind ≡ (if is_in all.now name.now then NetLater else UnknownNet)) }
    {
        match self.names.find(name) {
            Some(index) => Ok(index as u32),
            None if all.has(name) => Err(CircuitKind::NetLater),
            None => Err(CircuitKind::UnknownNet),
        }
    }

    /// Takes the names of an input line.
    fn inputs(&mut self, text: &'a [u8]) -> Result<(), Refusal>
        requires same { length self.old.names ≡ length self.old.nets }
        requires names { list_all is_name (words_of text.now) ≡ true }
        ensures outcome { Takes result (state_of self.new) (taken input (words_of text.now) (state_of self.old)) }
        ensures same { OnOk result (length self.new.names ≡ length self.new.nets) }
    {
        let mut words = Words::new(text);
        while let Some(word) = words.next_word() {
            match self.input(sure_name(word)) {
                Ok(()) => {}
                Err(refusal) => return Err(refusal),
            }
        }
        Ok(())
    }

    /// Takes the names of an output line.
    fn outputs(&mut self, all: &Texts, text: &'a [u8]) -> Result<(), Refusal>
        requires same { length self.old.names ≡ length self.old.nets }
        requires names { list_all is_name (words_of text.now) ≡ true }
        ensures outcome { Takes result (state_of self.new) (taken (output (is_in all.now)) (words_of text.now) (state_of self.old)) }
        ensures same { OnOk result (length self.new.names ≡ length self.new.nets) }
    {
        let mut words = Words::new(text);
        while let Some(word) = words.next_word() {
            match self.output(all, sure_name(word)) {
                Ok(()) => {}
                Err(refusal) => return Err(refusal),
            }
        }
        Ok(())
    }

    /// Puts a gate last, whose name is new and whose operands are defined.
    fn push(&mut self, name: &str, op: GateOp, a: u32, b: Option<u32>) -> Result<(), Refusal>
        requires same { length self.old.names ≡ length self.old.nets }
        requires fresh { is_in self.old.names name.now ≡ false }
        requires formed { IsNetAt (length self.old.nets) (net.Gate op a b) }
        ensures outcome { Takes result (state_of self.new) (by_fault (or_many self.old.names None) (with_net (state_of self.old) name.now (net.Gate op a b))) }
        ensures same { OnOk result (length self.new.names ≡ length self.new.nets) }
    {
        if self.nets.count() >= MOST_NETS {
            return Err(Refusal::Kind(CircuitKind::TooManyNets));
        }
        let Ok(()) = self.names.add(name) else {
            return Err(Refusal::Memory);
        };
        let Ok(()) = self.nets.push_gate(op, a, b) else {
            return Err(Refusal::Memory);
        };
        Ok(())
    }

    /// Takes a gate with one operand.
    fn one(&mut self, all: &Texts, name: &str, op: GateOp, a: &str) -> Result<(), Refusal>
        requires same { length self.old.names ≡ length self.old.nets }
        requires arity { has_two op ≡ false }
        ensures outcome { Takes result (state_of self.new) (gate (is_in all.now) (state_of self.old) name.now (a.now ∷ []) (net.Gate op (index_of self.old.names a.now) None)) }
        ensures same { OnOk result (length self.new.names ≡ length self.new.nets) }
    {
        if self.names.has(name) {
            return Err(Refusal::Kind(CircuitKind::NetTwice));
        }
        let a = match self.operand(all, a) {
            Ok(a) => a,
            Err(kind) => return Err(Refusal::Kind(kind)),
        };
        self.push(name, op, a, None)
    }

    /// Takes a gate with two operands.
    fn two(&mut self, all: &Texts, name: &str, op: GateOp, a: &str, b: &str) -> Result<(), Refusal>
        requires same { length self.old.names ≡ length self.old.nets }
        requires arity { has_two op ≡ true }
        ensures outcome { Takes result (state_of self.new) (gate (is_in all.now) (state_of self.old) name.now (a.now ∷ b.now ∷ []) (net.Gate op (index_of self.old.names a.now) (Some (index_of self.old.names b.now)))) }
        ensures same { OnOk result (length self.new.names ≡ length self.new.nets) }
    {
        if self.names.has(name) {
            return Err(Refusal::Kind(CircuitKind::NetTwice));
        }
        let a = match self.operand(all, a) {
            Ok(a) => a,
            Err(kind) => return Err(Refusal::Kind(kind)),
        };
        let b = match self.operand(all, b) {
            Ok(b) => b,
            Err(kind) => return Err(Refusal::Kind(kind)),
        };
        self.push(name, op, a, Some(b))
    }

    /// Takes the next line; `all` are the names that the lines of the text define.
    pub(crate) fn take(&mut self, all: &Texts, line: &'a [u8]) -> Result<(), Refusal>
        requires same { length self.old.names ≡ length self.old.nets }
        ensures outcome { Takes result (state_of self.new) (next (is_in all.now) (state_of self.old) (sort_of line.now)) }
        ensures same { OnOk result (length self.new.names ≡ length self.new.nets) }
    {
        match sort_line(line) {
            Sort::Blank => Ok(()),
            Sort::Inputs(names) => self.inputs(names),
            Sort::Outputs(names) => self.outputs(all, names),
            Sort::One { name, op, a } => self.one(all, name, op, a),
            Sort::Two { name, op, a, b } => self.two(all, name, op, a, b),
            Sort::Formless => Err(Refusal::Kind(CircuitKind::BadLine)),
        }
    }
}
