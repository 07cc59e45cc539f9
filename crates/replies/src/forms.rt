// The replies.
ghost use Rattle.std.specs.Prelude.{◌≡◌};
ghost use Rattle.refusal.specs.Numbers.{number_of};
ghost use Rattle.replies.specs.declared.forms.Reply.TheVariants.{Refused};

use fit_state::{Fit, FitResultRow};
use moments::Five;
use refusal::Refusal;
use step::Step;

// How a walk ended, after how many steps and by which number of a reason, and the state after it.
#[derive(Clone, Copy)]
pub struct Report {
    pub count: usize,
    pub reason: u64,
    pub state: Fit,
}

// How a search ended: its row, if there is one, and the state and the epsilon after it.
#[derive(Clone, Copy)]
pub struct Search {
    pub row: Option<FitResultRow>,
    pub state: Fit,
    pub epsilon: f64,
}

// The columns of fractions of a reply that has a row for each span. They stand in a list beside the
// reply, the second from the middle of the list on.
#[derive(Clone, Copy)]
pub enum Columns {
    Zero,
    One,
    Two,
}

// A row for each span: how many spans, the columns, and the place in the request before its list of
// starts.
#[derive(Clone, Copy)]
pub struct SpanRows {
    pub count: usize,
    pub columns: Columns,
    pub starts: usize,
}

// The reply to a request; a line that is no request has none. A refusal and a reason stand as the number that
// is printed, so that any can be put.
#[derive(Clone, Copy)]
pub enum Reply {
    Refused(u64),
    Fraction(f64),
    Natural(u64),
    Instant(i64),
    Moments(Five),
    Stepped(Step),
    Walked(Report),
    Searched(Search),
    // so many entries, of len fractions in all, which stand in a list beside the reply
    Listed { count: usize, len: usize },
    Spanned(SpanRows),
}

impl From<Refusal> for Reply {
    ghost from_gives = { λ refusal reply. reply ≡ Refused (number_of refusal) };

    fn from(refusal: Refusal) -> Reply
        ensures { result ≡ Refused (number_of refusal) }
    {
        Reply::Refused(u64::from(refusal))
    }
}
