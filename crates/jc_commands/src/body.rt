//! What is put of a command.
use jc_call_kinds::call_line::CallLine;
use jc_facts::dropped::Dropped;
use jc_facts::sig_note::SigNote;
use jc_facts::verdict::Verdict;
use jc_facts::warning::Warning;
use jc_shown::shown::Shown;

/// What is put of a command.
#[derive(Drop)]
pub enum ReportBody<'a> {
    /// These bytes.
    Bytes(Vec<u8>),
    /// The report of a check.
    Check(CheckBody<'a>),
    /// The text of the verdicts on a row of releases, which is made as it is put.
    Row(Vec<Verdict>),
}

/// What is put of a check: the parts of its report in their order, as JSON where that is asked for and
/// else as text, and before them the witness files of its verdict where those are asked for. A part
/// stays what it is until then: its text, which can be much longer than itself, never stands whole.
#[derive(Drop)]
pub struct CheckBody<'a> {
    pub json: bool,
    pub verdict: Verdict,
    pub warnings: Option<Vec<Warning>>,
    pub signatures: Option<Vec<SigNote>>,
    pub dropped: Option<Vec<Dropped>>,
    pub calls: Option<Vec<CallLine>>,
    pub shown: Option<Shown<'a>>,
}
