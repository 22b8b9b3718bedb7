// The answers of a run, and the line that is said of each.
ghost use Rattle.std.specs.Prelude.{◌≡◌, ◌++◌, codes, MatchOption};
ghost use Rattle.jsgen_model.specs.Fault.{rule_text};
ghost use Rattle.jsgen_fields.specs.Texts.{fault_text};
ghost use Rattle.jsgen_tool.specs.Lines.{code_of, line_of, spot_text};

use jsgen_fields::{At, InputFault};
use jsgen_model::TreeFault;

/// How a run ended.
#[derive(Clone, Copy, Debug, PartialEq, Eq)]
pub enum Status {
    /// The text is written.
    Done,
    /// The job breaks a rule.
    Refused(TreeFault),
    /// The words are no command.
    Usage,
    /// The input is no job.
    NotJob(InputFault),
    /// The input couldn't be read.
    ReadFault,
    /// The text couldn't be written whole.
    WriteFault,
    /// Memory ran out.
    Memory,
    /// The input is longer than the limit.
    TooLong,
}

/// Where something is wrong, as a line tells it.
#[derive(Clone, Copy, Debug, PartialEq, Eq)]
pub enum Spot {
    Nowhere,
    /// The start of a node's span.
    Start(u32),
    /// A row of the job.
    Row(usize),
    /// A field of the job.
    Field(At),
}

impl Status {
    /// The program's exit status.
    pub fn code(&self) -> u8
        ensures { result ≡ code_of self.now }
    {
        match self {
            Status::Done => 0,
            Status::Refused(_) => 1,
            Status::Usage => 2,
            Status::NotJob(_) => 3,
            Status::ReadFault => 4,
            Status::WriteFault => 5,
            Status::Memory => 6,
            Status::TooLong => 7,
        }
    }

    /// The line that is said of it, but for its end: a text, and the spot behind it.
    pub fn line(&self) -> Option<(&'static str, Spot)>
        ensures { MatchOption result (self.now ≡ Status.Done)
            (λ line. line_of self.now ≡ line.0.now ++ spot_text line.1 ++ codes "\n") }
    {
        let (text, spot) = match self {
            Status::Done => return None,
            Status::Refused(fault) => refused(*fault),
            Status::Usage => ("usage: jsgen COMMAND", Spot::Nowhere),
            Status::NotJob(fault) => not_job(*fault),
            Status::ReadFault => ("read failed", Spot::Nowhere),
            Status::WriteFault => ("write failed", Spot::Nowhere),
            Status::Memory => ("out of memory", Spot::Nowhere),
            Status::TooLong => ("input too long", Spot::Nowhere),
        };
        Some((text, spot))
    }
}

fn refused(fault: TreeFault) -> (&'static str, Spot)
    ensures { result.0.now ++ spot_text result.1 ≡ codes "refused: " ++ rule_text fault }
{
    let (text, start) = match fault {
        TreeFault::Place { start } => ("refused: Place", start),
        TreeFault::Name { start } => ("refused: Name", start),
        TreeFault::Literal { start } => ("refused: Literal", start),
        TreeFault::Template { start } => ("refused: Template", start),
        TreeFault::Span { start } => ("refused: Span", start),
        TreeFault::Comment { start } => ("refused: Comment", start),
        TreeFault::Indent { start } => ("refused: Indent", start),
    };
    (text, Spot::Start(start))
}

fn not_job(fault: InputFault) -> (&'static str, Spot)
    ensures { result.0.now ++ spot_text result.1 ≡ codes "not a job: " ++ fault_text fault }
{
    match fault {
        InputFault::Json => ("not a job: Json", Spot::Nowhere),
        InputFault::Float(at) => ("not a job: Float", Spot::Field(at)),
        InputFault::Missing(at) => ("not a job: Missing", Spot::Field(at)),
        InputFault::Wrong(at) => ("not a job: Wrong", Spot::Field(at)),
        InputFault::Child(at) => ("not a job: Child", Spot::Field(at)),
        InputFault::Shared(row) => ("not a job: Shared", Spot::Row(row)),
        InputFault::Memory => ("not a job: Memory", Spot::Nowhere),
    }
}
