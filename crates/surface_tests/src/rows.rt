//! Words and texts, and what the program answers.

use surf_kinds::Status;

/// Words in one line, a text, and what the call answers: its status, and what stands in the sink and in the notes.
#[derive(Clone, Copy)]
pub(crate) struct Row {
    pub line: &'static str,
    pub text: &'static str,
    pub status: Status,
    pub out: &'static str,
    pub notes: &'static str,
}

pub(crate) const CATALYST: &str =
    "!START_TRANSITION_RULES\n(1000000000) A + B -> A + C\n!END_TRANSITION_RULES\n!START_INIT_STATE\nB A B\n!END_INIT_STATE\n";

/// What a run of CATALYST writes, of 103 bytes.
pub(crate) const CATALYST_RUN: &str =
    "event 1 0 0 east 0 1\nevent 2 0 1 east 0 0\nsurface 100000000 2\nC A C\ncounts A:1 B:0 C:2\nend 100000000 2\n";

/// Two rows whose sites fire at each tick.
pub(crate) const RENEWAL: &str =
    "max_duration = 0.000003\n!START_TRANSITION_RULES\n(1000000000) A -> A\n!END_TRANSITION_RULES\n!START_INIT_STATE\nA\nA\n!END_INIT_STATE\n";

/// What a run of RENEWAL writes.
pub(crate) const RENEWAL_RUN: &str =
    "event 1 0 0 self 0 0\nevent 1 1 0 self 0 0\nevent 2 0 0 self 0 0\nevent 2 1 0 self 0 0\nevent 3 0 0 self 0 0\nevent 3 1 0 self 0 0\nsurface 3 6\nA\nA\ncounts A:2\nend 3 6\n";

const DECAY: &str =
    "!START_TRANSITION_RULES\n(1000000000) A -> B\n!END_TRANSITION_RULES\n!START_INIT_STATE\nA A\n!END_INIT_STATE\n";

const DEMO: &str =
    "# Demo\npixels_per_node = 50\nrng_seed\t= 7\t# a seed\nmax_duration = 2.50\nfps = 60\n\n!START_TRANSITION_RULES\n(1) A + B -> B + A\n(0.25)\tC->A\n!END_TRANSITION_RULES\n\n!START_INIT_STATE\nA B\nC  A\n!END_INIT_STATE\n\n!START_COLORMAP\nA: (255, 0, 0)\n!END_COLORMAP\n";

const DEMO_TEXT: &str =
    "rng_seed = 7\nmax_duration = 2.5\nlattice = square\nwrap = false\npixels_per_node = 50\nfps = 60\n!START_TRANSITION_RULES\n(1) A + B -> B + A\n(1/4) C -> A\n!END_TRANSITION_RULES\n!START_INIT_STATE\nA B\nC A\n!END_INIT_STATE\n!START_COLORMAP\nA: (255, 0, 0)\n!END_COLORMAP\n";

pub(crate) const XOR: &str = "input a b\nx = XOR a b\noutput x\n";

const C17: &str =
    "# c17\nINPUT(1)\nINPUT(2)\nINPUT(3)\nINPUT(6)\nINPUT(7)\n\nOUTPUT(22)\nOUTPUT(23)\n\n10 = NAND(1, 3)\n11 = NAND(3, 6)\n16 = NAND(2, 11)\n19 = NAND(11, 7)\n22 = NAND(10, 16)\n23 = NAND(16, 19)\n";

const C17_CIRCUIT: &str =
    "input n0\ninput n1\ninput n2\ninput n3\ninput n4\nn5 = NAND n0 n2\nn6 = NAND n2 n3\nn7 = NAND n1 n6\nn8 = NAND n6 n4\nn9 = NAND n5 n7\nn10 = NAND n7 n8\noutput n9\noutput n10\n";

const WIDE: &str = "INPUT(a)\nINPUT(b)\nINPUT(c)\nOUTPUT(y)\ny = NAND(t, b, c)\nt = not(a)\n";

const WIDE_CIRCUIT: &str =
    "input n0\ninput n1\ninput n2\nn3 = NOT n0\nn4 = AND n3 n1\nn5 = NAND n4 n2\noutput n5\n";

/// Commands, options and their output.
pub(crate) const ANSWERED: [Row; 31] = [
    Row {
        line: "run",
        text: CATALYST,
        status: Status::Done,
        out: CATALYST_RUN,
        notes: "",
    },
    Row {
        line: "run --until 0.000002 --samples 2",
        text: CATALYST,
        status: Status::Done,
        out: "event 1 0 0 east 0 1\nsurface 1 1\nC A B\ncounts A:1 B:1 C:1\nevent 2 0 1 east 0 0\nsurface 2 2\nC A C\ncounts A:1 B:0 C:2\nend 2 2\n",
        notes: "",
    },
    Row {
        line: "run --until 0.000002 --samples 5 --limit 2",
        text: CATALYST,
        status: Status::Done,
        out: "surface 0 0\nB A B\ncounts A:1 B:2 C:0\nsurface 0 0\nB A B\ncounts A:1 B:2 C:0\nevent 1 0 0 east 0 1\nsurface 1 1\nC A B\ncounts A:1 B:1 C:1\nsurface 1 1\nC A B\ncounts A:1 B:1 C:1\nevent 2 0 1 east 0 0\nsurface 2 2\nC A C\ncounts A:1 B:0 C:2\nend 2 2\n",
        notes: "",
    },
    Row {
        line: "run --samples 0 --limit 2 --workers 64 --seed 3",
        text: CATALYST,
        status: Status::Done,
        out: "event 1 0 0 east 0 1\nevent 2 0 1 east 0 0\nend 100000000 2\n",
        notes: "",
    },
    Row {
        line: "run --until 0.000002 --samples 2 --limit 1",
        text: CATALYST,
        status: Status::Limit,
        out: "event 1 0 0 east 0 1\nsurface 1 1\nC A B\ncounts A:1 B:1 C:1\nlimit 1\n",
        notes: "limit events 1\n",
    },
    Row {
        line: "run --limit 0",
        text: DECAY,
        status: Status::Limit,
        out: "limit 0\n",
        notes: "limit events 0\n",
    },
    Row {
        line: "run --limit 1",
        text: DECAY,
        status: Status::Limit,
        out: "event 1 0 0 self 0 0\nlimit 1\n",
        notes: "limit events 1\n",
    },
    Row {
        line: "run --samples 0 --limit 2",
        text: DECAY,
        status: Status::Done,
        out: "event 1 0 0 self 0 0\nevent 1 0 1 self 0 0\nend 100000000 2\n",
        notes: "",
    },
    Row {
        line: "run",
        text: "max_duration = 10\n!START_INIT_STATE\nA\n!END_INIT_STATE\n",
        status: Status::Done,
        out: "surface 10000000 0\nA\ncounts A:1\nend 10000000 0\n",
        notes: "",
    },
    Row {
        line: "run",
        text: "max_duration = 0\n!START_TRANSITION_RULES\n(1000000000) A -> B\n!END_TRANSITION_RULES\n!START_INIT_STATE\nA\n!END_INIT_STATE\n",
        status: Status::Done,
        out: "surface 0 0\nA\ncounts A:1 B:0\nend 0 0\n",
        notes: "",
    },
    Row {
        line: "run",
        text: "max_duration = 10\n!START_TRANSITION_RULES\n(0) A -> B\n!END_TRANSITION_RULES\n!START_INIT_STATE\nA\n!END_INIT_STATE\n",
        status: Status::Done,
        out: "surface 10000000 0\nA\ncounts A:1 B:0\nend 10000000 0\n",
        notes: "",
    },
    Row {
        line: "print",
        text: "max_duration = 10\n!START_TRANSITION_RULES\n(0) A -> B\n!END_TRANSITION_RULES\n!START_INIT_STATE\nA\n!END_INIT_STATE\n",
        status: Status::Done,
        out: "rng_seed = 0\nmax_duration = 10\nlattice = square\nwrap = false\n!START_TRANSITION_RULES\n(0) A -> B\n!END_TRANSITION_RULES\n!START_INIT_STATE\nA\n!END_INIT_STATE\n",
        notes: "",
    },
    Row {
        line: "run",
        text: "!START_TRANSITION_RULES\n(1000000000) A + A -> B + B\n!END_TRANSITION_RULES\n!START_INIT_STATE\nA A\n!END_INIT_STATE\n",
        status: Status::Done,
        out: "event 1 0 0 east 0 0\nsurface 100000000 1\nB B\ncounts A:0 B:2\nend 100000000 1\n",
        notes: "",
    },
    Row {
        line: "run",
        text: "!START_TRANSITION_RULES\n(1000000000) A + A -> B + C\n!END_TRANSITION_RULES\n!START_INIT_STATE\nA A\n!END_INIT_STATE\n",
        status: Status::Done,
        out: "event 1 0 0 east 0 0\nsurface 100000000 1\nB C\ncounts A:0 B:1 C:1\nend 100000000 1\n",
        notes: "",
    },
    Row {
        line: "run",
        text: "max_duration = 0.000003\n!START_TRANSITION_RULES\n(1000000000) A -> A\n!END_TRANSITION_RULES\n!START_INIT_STATE\nA\n!END_INIT_STATE\n",
        status: Status::Done,
        out: "event 1 0 0 self 0 0\nevent 2 0 0 self 0 0\nevent 3 0 0 self 0 0\nsurface 3 3\nA\ncounts A:1\nend 3 3\n",
        notes: "",
    },
    Row {
        line: "run",
        text: "!START_TRANSITION_RULES\n(1000000000) A + A -> B + B\n!END_TRANSITION_RULES\n!START_INIT_STATE\nA A A\n!END_INIT_STATE\n",
        status: Status::Done,
        out: "event 1 0 0 east 0 0\nsurface 100000000 1\nB B A\ncounts A:1 B:2\nend 100000000 1\n",
        notes: "",
    },
    Row {
        line: "run",
        text: "lattice = hex\nwrap = true\n!START_TRANSITION_RULES\n(1000000000) A + B -> C + D\n!END_TRANSITION_RULES\n!START_INIT_STATE\nA N N\nN N B\nN N N\n!END_INIT_STATE\n",
        status: Status::Done,
        out: "event 1 0 0 southwest 0 0\nsurface 100000000 1\nC N N\nN N D\nN N N\ncounts A:0 B:0 C:1 D:1 N:7\nend 100000000 1\n",
        notes: "",
    },
    Row {
        line: "print",
        text: DEMO,
        status: Status::Done,
        out: DEMO_TEXT,
        notes: "",
    },
    Row {
        line: "print",
        text: DEMO_TEXT,
        status: Status::Done,
        out: DEMO_TEXT,
        notes: "",
    },
    Row {
        line: "check",
        text: DEMO,
        status: Status::Done,
        out: "ok 2 2 square false 3 2 2500000\n",
        notes: "",
    },
    Row {
        line: "check",
        text: "lattice = hex\nwrap = true\n!START_INIT_STATE\nA A A\nA A A\nA A A\n!END_INIT_STATE\n",
        status: Status::Done,
        out: "ok 3 3 hex true 1 0 100000000\n",
        notes: "",
    },
    Row {
        line: "value --inputs 10",
        text: XOR,
        status: Status::Done,
        out: "x 1\n",
        notes: "",
    },
    Row {
        line: "value --inputs 11",
        text: XOR,
        status: Status::Done,
        out: "x 0\n",
        notes: "",
    },
    Row {
        line: "ensemble --first 18446744073709551615 --seeds 2",
        text: CATALYST,
        status: Status::Done,
        out: "seed 18446744073709551615 events 2 last 2 A:1 B:0 C:2\nseed 0 events 2 last 2 A:1 B:0 C:2\ntotal seeds 2 ended 2 events 4\nA least 1 greatest 1 sum 2\nB least 0 greatest 0 sum 0\nC least 2 greatest 2 sum 4\n",
        notes: "",
    },
    Row {
        line: "ensemble --seeds 1 --first 7 --limit 1",
        text: CATALYST,
        status: Status::Done,
        out: "seed 7 events 1 last 1 A:1 B:1 C:1 limit\ntotal seeds 1 ended 0 events 1\nA least 1 greatest 1 sum 1\nB least 1 greatest 1 sum 1\nC least 1 greatest 1 sum 1\n",
        notes: "",
    },
    Row {
        line: "ensemble --until 0 --workers 3 --seeds 2",
        text: CATALYST,
        status: Status::Done,
        out: "seed 0 events 0 last 0 A:1 B:2 C:0\nseed 1 events 0 last 0 A:1 B:2 C:0\ntotal seeds 2 ended 2 events 0\nA least 1 greatest 1 sum 2\nB least 2 greatest 2 sum 4\nC least 0 greatest 0 sum 0\n",
        notes: "",
    },
    Row {
        line: "bench",
        text: C17,
        status: Status::Done,
        out: C17_CIRCUIT,
        notes: "",
    },
    Row {
        line: "value --inputs 00000",
        text: C17_CIRCUIT,
        status: Status::Done,
        out: "n9 0\nn10 0\n",
        notes: "",
    },
    Row {
        line: "bench",
        text: WIDE,
        status: Status::Done,
        out: WIDE_CIRCUIT,
        notes: "",
    },
    Row {
        line: "value --inputs 011",
        text: WIDE_CIRCUIT,
        status: Status::Done,
        out: "n5 0\n",
        notes: "",
    },
    Row {
        line: "run --workers 2 --quota 1",
        text: RENEWAL,
        status: Status::Done,
        out: RENEWAL_RUN,
        notes: "",
    },
];

/// Refusals.
pub(crate) const REFUSED: [Row; 15] = [
    Row {
        line: "",
        text: CATALYST,
        status: Status::Words,
        out: "",
        notes: "words 0\n",
    },
    Row {
        line: "watch",
        text: CATALYST,
        status: Status::Words,
        out: "",
        notes: "words 0\n",
    },
    Row {
        line: "run --workers 0",
        text: CATALYST,
        status: Status::Words,
        out: "",
        notes: "words 2\n",
    },
    Row {
        line: "run --seed",
        text: CATALYST,
        status: Status::Words,
        out: "",
        notes: "words 2\n",
    },
    Row {
        line: "run --workers 2 --workers 2",
        text: CATALYST,
        status: Status::Words,
        out: "",
        notes: "words 3\n",
    },
    Row {
        line: "run",
        text: "!START_INIT_STATE\nA B\nA B\nA\n!END_INIT_STATE\n",
        status: Status::Faulty,
        out: "",
        notes: "manifest RaggedRow line 4\n",
    },
    Row {
        line: "check",
        text: "",
        status: Status::Faulty,
        out: "",
        notes: "manifest SectionMissing line 1\n",
    },
    Row {
        line: "check",
        text: "!START_INIT_STATE\nA\n",
        status: Status::Faulty,
        out: "",
        notes: "manifest SectionOpen line 1\n",
    },
    Row {
        line: "value",
        text: "input a\n",
        status: Status::Faulty,
        out: "",
        notes: "circuit NoOutput line 2\n",
    },
    Row {
        line: "value",
        text: "input a\nx = AND a y\ny = NOT a\noutput x\n",
        status: Status::Faulty,
        out: "",
        notes: "circuit NetLater line 2\n",
    },
    Row {
        line: "value --inputs 1",
        text: XOR,
        status: Status::Faulty,
        out: "",
        notes: "circuit WrongInputs 2 1\n",
    },
    Row {
        line: "compile --inputs 1",
        text: XOR,
        status: Status::Faulty,
        out: "",
        notes: "circuit WrongInputs 2 1\n",
    },
    Row {
        line: "gen --number 1000000001",
        text: XOR,
        status: Status::Words,
        out: "",
        notes: "words 2\n",
    },
    Row {
        line: "compact --inputs 1",
        text: XOR,
        status: Status::Faulty,
        out: "",
        notes: "circuit WrongInputs 2 1\n",
    },
    Row {
        line: "bench",
        text: "INPUT(a)\nx = DFF(a)\n",
        status: Status::Faulty,
        out: "",
        notes: "bench Sequential line 2\n",
    },
];

/// The manifest CATALYST cut short at each of its parts, and the message on it.
pub(crate) const CUT_SHORT: [(&str, &str); 9] = [
    ("", "manifest SectionMissing line 1\n"),
    ("!START_TRANSITION_RULES\n", "manifest SectionOpen line 1\n"),
    (
        "!START_TRANSITION_RULES\n(1000000000",
        "manifest BadRate line 2\n",
    ),
    (
        "!START_TRANSITION_RULES\n(1000000000) A + B ->",
        "manifest BadRule line 2\n",
    ),
    (
        "!START_TRANSITION_RULES\n(1000000000) A + B -> A",
        "manifest BadArity line 2\n",
    ),
    (
        "!START_TRANSITION_RULES\n(1000000000) A + B -> A + C\n",
        "manifest SectionOpen line 1\n",
    ),
    (
        "!START_TRANSITION_RULES\n(1000000000) A + B -> A + C\n!END_TRANSITION_RULE",
        "manifest UnknownSection line 3\n",
    ),
    (
        "!START_TRANSITION_RULES\n(1000000000) A + B -> A + C\n!END_TRANSITION_RULES\n",
        "manifest SectionMissing line 4\n",
    ),
    (
        "!START_TRANSITION_RULES\n(1000000000) A + B -> A + C\n!END_TRANSITION_RULES\n!START_INIT_STATE\nB A B\n",
        "manifest SectionOpen line 4\n",
    ),
];
