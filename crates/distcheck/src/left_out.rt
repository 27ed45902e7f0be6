//! Why a talk is left out.

use crate::command::CheckOrder;
use dist_conformance::{Action, RowTalk, SuiteRow};

/// How many milliseconds a demand waits in a row that is not slow.
const USUAL: u32 = 5000;

/// Why a talk is left out.
#[derive(Clone, Copy)]
pub enum SkipReason {
    /// The node is to connect to us, and is dialled over TLS.
    ConnectOverTls,
    /// One side of a connection ends, or it is reset, and a tunnel of TLS passes on neither.
    EndOverTls,
    /// The node is to dial, and nobody makes it.
    NoDial,
    /// The node is to dial, and its name does not sort between those of talks, which begin with `0c` or `zz`.
    NotBetween,
    /// The node is to dial a name that begins with `ZZ`, and its own does not sort behind that.
    NotBehind,
    /// The node is to start, and nobody starts it.
    NoStart,
    /// The row is harsh.
    Harsh,
    /// The row is slow.
    Slow,
    /// Nobody listens any more.
    Gone,
    /// Nothing came in any talk before.
    Silent,
}

impl SkipReason {
    /// In words.
    pub fn text(self) -> &'static str {
        match self {
            SkipReason::ConnectOverTls => "over TLS the node is not made to dial",
            SkipReason::EndOverTls => "a tunnel of TLS passes on no half and no reset",
            SkipReason::NoDial => "nobody makes the node dial (--make-it-dial)",
            SkipReason::NotBetween => "the node's name does not sort between 0d and zz",
            SkipReason::NotBehind => "the node's name does not sort behind ZZ",
            SkipReason::NoStart => "nobody starts the node (--start)",
            SkipReason::Harsh => "harsh: it can end a fragile node (--harsh)",
            SkipReason::Slow => "slow: left out by --quick",
            SkipReason::Gone => "nobody listens any more",
            SkipReason::Silent => "nothing came in any talk",
        }
    }
}

/// Whether a row is slow.
pub fn is_slow(row: &SuiteRow) -> bool {
    row.marks.limit > USUAL
}

// Whether a talk has the node dial a name with this front.
fn has_dial(talk: &RowTalk, front: &[u8]) -> bool {
    talk.steps.as_slice().iter().any(|step| match &step.action {
        Action::Call(_, info) => info.name.as_slice().starts_with(front),
        _ => false,
    })
}

// Whether a name sorts before another.
fn is_before(one: &[u8], other: &[u8]) -> bool {
    one.cmp(other).is_lt()
}

/// Why a talk is left out, if it is: the first reason that holds. `is_tunnelled` says whether it goes through a tunnel of TLS.
pub fn left_out_of(
    order: &CheckOrder<'_>,
    is_tunnelled: bool,
    row: &SuiteRow,
    talk: &RowTalk,
) -> Option<SkipReason> {
    let node = order.node.unwrap_or("").as_bytes();
    let mut steps = talk.steps.as_slice().iter();
    let is_started = steps.any(|step| matches!(step.action, Action::Start));
    let mut steps = talk.steps.as_slice().iter();
    let is_ended = steps.any(|step| matches!(step.action, Action::Half | Action::Reset));
    let is_dialled = has_dial(talk, b"");
    let is_between = is_before(b"0d", node) && is_before(node, b"zz");
    let is_behind = is_before(b"[", node);
    let reasons = [
        (
            is_tunnelled && (is_dialled || is_started),
            SkipReason::ConnectOverTls,
        ),
        (is_tunnelled && is_ended, SkipReason::EndOverTls),
        (
            is_dialled && order.make_it_dial.is_none(),
            SkipReason::NoDial,
        ),
        (is_dialled && !is_between, SkipReason::NotBetween),
        (has_dial(talk, b"ZZ") && !is_behind, SkipReason::NotBehind),
        (is_started && order.start.is_none(), SkipReason::NoStart),
        (row.marks.harsh && !order.harsh, SkipReason::Harsh),
        (is_slow(row) && order.quick, SkipReason::Slow),
    ];
    let (_, why) = reasons.iter().find(|(holds, _)| *holds)?;
    Some(*why)
}
