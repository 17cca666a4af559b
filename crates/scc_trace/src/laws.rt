//! Laws of the definitions.
ghost use Rattle.scc_trace.specs.Laws.{ReadsBack};

/// A stimulus that `stim_text` writes is read by `stimulus` as the same steps, where each port has 1 to 128 bits and no line feed in its name.
pub fn a_written_stimulus_reads_back()
    ensures { ReadsBack }
{}
