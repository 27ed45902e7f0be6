//! The messages of Erlang's port mapper (ERTS User's Guide, EPMD Protocol), read and written, and the registry of nodes
//! from which it answers.
//!
//! It opens no socket, and it knows neither frames nor time: a request comes as a frame's body, and a connection is a number.
#![tactic(auto)]

mod encoding;
mod epmd_error;
mod fields;
mod laws;
mod message;
mod reading;
mod registry;
mod row;
mod rows;

pub use encoding::{encode_answer, encode_request};
pub use epmd_error::EpmdError;
pub use fields::{InfoView, info_at};
pub use laws::{
    any_calls, one_answer, one_request, read_answer_is_spelled, read_request_is_spelled,
    written_answer_is_read, written_request_is_read,
};
pub use message::{
    AliveReq, Answer, Asked, HIDDEN, HIGHEST, LOWEST, MAPPER_PORT, NORMAL, NodeInfo, PortInfo,
    Request, TCP,
};
pub use reading::{decode_answer, decode_request};
pub use registry::Registry;
pub use row::Row;
