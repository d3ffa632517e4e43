//! Rules as lines.

ghost use Rattle.std.specs.Prelude.{◌≡◌};
ghost use Rattle.std.specs.List.{list_all};
ghost use Rattle.std.specs.Option.{option_map};
ghost use Rattle.surf_text.specs.Cuts.{cut_at};
ghost use Rattle.manifest_read.specs.Names.{is_name, cut_arrow};
ghost use Rattle.manifest_read.specs.Rules.{side_of, by_arrow, by_bracket, rule_of};
ghost use Rattle.manifest_read.specs.Seen.{named_result_of, side_by, counted, sided, by_counts};

use crate::fault::ManifestKind;
use crate::names::{cut_arrow, is_name};
use rates::read_rate;
use surf_kinds::Rate;
use surf_text::{cut_text, trim_text};

/// A rule by its names.
#[derive(Clone, Copy)]
pub(crate) enum RuleText<'a> {
    One {
        rate: Rate,
        a: &'a str,
        c: &'a str,
    },
    Two {
        rate: Rate,
        a: &'a str,
        b: &'a str,
        c: &'a str,
        d: &'a str,
    },
}

/// The names on a side of a rule, as many as a rule may have.
#[derive(Clone, Copy)]
pub(crate) enum Side<'a> {
    One(&'a str),
    Two(&'a str, &'a str),
    Many,
}

/// Whether all pieces of a side are names.
fn are_names(text: &str) -> bool
    ensures { result ≡ list_all is_name (side_of text.now) }
{
    let mut rest = text;
    while let Some((piece, after)) = cut_text(rest, b'+') {
        if !is_name(trim_text(piece)) {
            return false;
        }
        rest = after;
    }
    is_name(trim_text(rest))
}

fn count_side(text: &str) -> Side<'_>
    ensures { side_by result ≡ counted (side_of text.now) }
{
    match cut_text(text, b'+') {
        None => Side::One(trim_text(text)),
        Some((first, rest)) => match cut_text(rest, b'+') {
            None => Side::Two(trim_text(first), trim_text(rest)),
            Some(_) => Side::Many,
        },
    }
}

/// The names of a side; `None` where a piece is no name.
fn read_side(text: &str) -> Option<Side<'_>>
    ensures { option_map side_by result ≡ sided (side_of text.now) }
{
    if are_names(text) {
        Some(count_side(text))
    } else {
        None
    }
}

fn by_sides<'a>(rate: Rate, left: Side<'a>, right: Side<'a>) -> Result<RuleText<'a>, ManifestKind>
    ensures { named_result_of result ≡ by_counts rate (side_by left.entry) (side_by right.entry) }
{
    match left {
        Side::One(a) => match right {
            Side::One(c) => Ok(RuleText::One { rate, a, c }),
            _ => Err(ManifestKind::BadArity),
        },
        Side::Two(a, b) => match right {
            Side::Two(c, d) => Ok(RuleText::Two { rate, a, b, c, d }),
            _ => Err(ManifestKind::BadArity),
        },
        Side::Many => Err(ManifestKind::BadArity),
    }
}

fn by_arrow(rate: Rate, text: &str) -> Result<RuleText<'_>, ManifestKind>
    ensures { named_result_of result ≡ by_arrow rate (cut_arrow text.now) }
{
    let Some((left, right)) = cut_arrow(text) else {
        return Err(ManifestKind::BadRule);
    };
    let Some(left) = read_side(left) else {
        return Err(ManifestKind::BadRule);
    };
    let Some(right) = read_side(right) else {
        return Err(ManifestKind::BadRule);
    };
    by_sides(rate, left, right)
}

/// The rule of a text that stands behind an opening bracket.
fn by_bracket(text: &str) -> Result<RuleText<'_>, ManifestKind>
    ensures { named_result_of result ≡ by_bracket (cut_at 41 text.now) }
{
    let Some((rate, rest)) = cut_text(text, b')') else {
        return Err(ManifestKind::BadRate);
    };
    let Some(rate) = read_rate(rate.as_bytes()) else {
        return Err(ManifestKind::BadRate);
    };
    by_arrow(rate, rest)
}

/// The rule of a line; the rate is 1 where there is none.
#[tactic(auto, using(surf_kinds::proofs::Fractions::whole_reduced))]
pub(crate) fn read_rule(text: &str) -> Result<RuleText<'_>, ManifestKind>
    ensures { named_result_of result ≡ rule_of text.now }
{
    match text.strip_prefix('(') {
        Some(rest) => by_bracket(rest),
        None => by_arrow(Rate { p: 1, q: 1 }, text),
    }
}
