//! A manifest that several tests read.

/// Settings, rules, rows and colours, with comments and blanks.
pub(crate) const DEMO: &[u8] =
    b"# Demo\npixels_per_node = 50\nrng_seed\t= 7\t# a seed\nmax_duration = 2.50\nfps = 60\n\n!START_TRANSITION_RULES\n(1) A + B -> B + A\n(0.25)\tC->A\n!END_TRANSITION_RULES\n\n!START_INIT_STATE\nA B\nC  A\n!END_INIT_STATE\n\n!START_COLORMAP\nA: (255, 0, 0)\n!END_COLORMAP\n";
