//! Reading messages.

ghost use Rattle.std.specs.Prelude.{IfOk, IfErr};
ghost use Rattle.dist_epmd.specs.Layout.{SpellsRequest, SpellsAnswer, RequestFits, AnswerFits};
ghost use Rattle.dist_epmd.specs.Reading.{whole_info, alive_x, alive, node_answer, read_request, read_answer};
ghost use Rattle.dist_epmd.specs.{Answering.Answers, Answering.LacksName, Answering.LacksText, Refusing.RefusesRequest, Refusing.RefusesAnswer};
ghost use Rattle.dist_epmd.specs.declared.message.{Answer.Answer, Asked.Asked, Request.Request};

use crate::epmd_error::EpmdError;
use crate::fields::{info_at, u16_at, u32_at};
use crate::message::{Answer, Asked, NodeInfo, Request};
use dist_names::ByteString;
use std::alloc::Global;

#[tactic(auto, unfolding(crate::specs::Reading::whole_info))]
fn whole_info(alloc: Global, bytes: &[u8]) -> Result<NodeInfo, EpmdError>
    ensures { Answers (λ i. i) result (whole_info bytes.now) }
{
    let (fields, rest) = info_at(bytes).ok_or(EpmdError::Short)?;
    if !rest.is_empty() {
        return Err(EpmdError::Trailing);
    }
    let name = ByteString::from_slice(alloc, fields.name)?;
    let extra = ByteString::from_slice(alloc, fields.extra)?;
    Ok(NodeInfo {
        port: fields.port,
        node_type: fields.node_type,
        protocol: fields.protocol,
        highest: fields.highest,
        lowest: fields.lowest,
        name,
        extra,
    })
}

#[tactic(auto, unfolding(crate::specs::Reading::read_request))]
fn read_request(alloc: Global, body: &[u8]) -> Result<Request, EpmdError>
    ensures exact { Answers (λ r. r) result (read_request body.now) }
    ensures lacks { LacksName result (read_request body.now) }
{
    let [tag, rest @ ..] = body else {
        return Err(EpmdError::Short);
    };
    match *tag {
        0x78 => Ok(Request::Alive(whole_info(alloc, rest)?)),
        0x7a => Ok(Request::PortPlease(ByteString::from_slice(alloc, rest)?)),
        0x6e => {
            if !rest.is_empty() {
                return Err(EpmdError::Trailing);
            }
            Ok(Request::Names)
        }
        _ => Err(EpmdError::Malformed),
    }
}

#[tactic(auto, unfolding(crate::specs::Reading::alive_x))]
fn alive_x(bytes: &[u8]) -> Result<Answer, EpmdError>
    ensures exact { Answers (λ a. a) result (alive_x bytes.now) }
    ensures lacks { LacksText result (alive_x bytes.now) }
{
    let [result_code, rest @ ..] = bytes else {
        return Err(EpmdError::Short);
    };
    let (creation, rest) = u32_at(rest).ok_or(EpmdError::Short)?;
    if !rest.is_empty() {
        return Err(EpmdError::Trailing);
    }
    Ok(Answer::AliveX {
        result_code: *result_code,
        creation,
    })
}

#[tactic(auto, unfolding(crate::specs::Reading::alive))]
fn alive(bytes: &[u8]) -> Result<Answer, EpmdError>
    ensures exact { Answers (λ a. a) result (alive bytes.now) }
    ensures lacks { LacksText result (alive bytes.now) }
{
    let [result_code, rest @ ..] = bytes else {
        return Err(EpmdError::Short);
    };
    let (creation, rest) = u16_at(rest).ok_or(EpmdError::Short)?;
    if !rest.is_empty() {
        return Err(EpmdError::Trailing);
    }
    Ok(Answer::Alive {
        result_code: *result_code,
        creation,
    })
}

#[tactic(auto, unfolding(crate::specs::Reading::node_answer))]
fn node_answer(alloc: Global, bytes: &[u8]) -> Result<Answer, EpmdError>
    ensures exact { Answers (λ a. a) result (node_answer bytes.now) }
    ensures lacks { LacksText result (node_answer bytes.now) }
{
    let [code, rest @ ..] = bytes else {
        return Err(EpmdError::Short);
    };
    if *code == 0 {
        return Ok(Answer::Port(Ok(whole_info(alloc, rest)?)));
    }
    if !rest.is_empty() {
        return Err(EpmdError::Trailing);
    }
    Ok(Answer::Port(Err(*code)))
}

#[tactic(auto, unfolding(crate::specs::Reading::read_answer))]
fn registration_answer(bytes: &[u8]) -> Result<Answer, EpmdError>
    ensures exact { Answers (λ a. a) result (read_answer Asked.Alive bytes.now) }
    ensures lacks { LacksText result (read_answer Asked.Alive bytes.now) }
{
    let [tag, rest @ ..] = bytes else {
        return Err(EpmdError::Short);
    };
    match *tag {
        0x76 => alive_x(rest),
        0x79 => alive(rest),
        _ => Err(EpmdError::Malformed),
    }
}

#[tactic(auto, unfolding(crate::specs::Reading::read_answer))]
fn lookup_answer(alloc: Global, bytes: &[u8]) -> Result<Answer, EpmdError>
    ensures exact { Answers (λ a. a) result (read_answer Asked.Port bytes.now) }
    ensures lacks { LacksText result (read_answer Asked.Port bytes.now) }
{
    let [tag, rest @ ..] = bytes else {
        return Err(EpmdError::Short);
    };
    if *tag != 0x77 {
        return Err(EpmdError::Malformed);
    }
    node_answer(alloc, rest)
}

// The answer to a question for all names.
#[tactic(auto, unfolding(crate::specs::Reading::read_answer))]
fn names_answer(alloc: Global, bytes: &[u8]) -> Result<Answer, EpmdError>
    ensures exact { Answers (λ a. a) result (read_answer Asked.Names bytes.now) }
    ensures lacks { LacksText result (read_answer Asked.Names bytes.now) }
{
    let (port, text) = u32_at(bytes).ok_or(EpmdError::Short)?;
    let text = ByteString::from_slice(alloc, text)?;
    Ok(Answer::Names { port, text })
}

#[tactic(auto, unfolding(crate::specs::Reading::read_answer))]
fn read_answer(alloc: Global, asked: Asked, bytes: &[u8]) -> Result<Answer, EpmdError>
    ensures exact { Answers (λ a. a) result (read_answer asked bytes.now) }
    ensures lacks { LacksText result (read_answer asked bytes.now) }
{
    match asked {
        Asked::Alive => registration_answer(bytes),
        Asked::Port => lookup_answer(alloc, bytes),
        Asked::Names => names_answer(alloc, bytes),
    }
}

/// The request that a body spells (see [`Request`]).
///
/// Refusals, the first that holds: Malformed where the first byte is none of 0x78, 0x7a and 0x6e; Short where there is no
/// byte, or the body ends inside a field; Trailing where bytes stand after the last field; NoMemory, which comes only for a
/// request that carries a name.
pub fn decode_request(alloc: Global, body: &[u8]) -> Result<Request, EpmdError>
    // The body spells the request that is returned.
    ensures found { IfOk result (λ m. SpellsRequest m body.now) }

    // A request that the body spells is returned, unless memory runs out.
    ensures only { (m : Request) → RequestFits m → SpellsRequest m body.now → Answers (λ x. x) result (Ok m) }

    // A refusal has its reason.
    ensures refused { IfErr result (λ error. RefusesRequest body.now error) }

    // The request or the refusal.
    ensures exact { Answers (λ r. r) result (read_request body.now) }

    // Memory runs out only for a request that carries a name.
    ensures lacks { LacksName result (read_request body.now) }
{
    read_request(alloc, body)
}

/// The answer to this question that bytes spell (see [`Answer`]). The bytes are the whole answer, as read to its end.
///
/// Refusals, the first that holds: Malformed where the first byte is none of those of an answer to this question (0x76 and
/// 0x79, 0x77, or any byte for names); Short where there is no byte, or the bytes end inside a field; Trailing where bytes
/// stand after the last field; NoMemory, which comes only for an answer that carries a name or a text.
pub fn decode_answer(alloc: Global, asked: Asked, bytes: &[u8]) -> Result<Answer, EpmdError>
    // The bytes spell the answer that is returned.
    ensures found { IfOk result (λ m. SpellsAnswer asked m bytes.now) }

    // An answer that the bytes spell is returned, unless memory runs out.
    ensures only { (m : Answer) → AnswerFits m → SpellsAnswer asked m bytes.now → Answers (λ x. x) result (Ok m) }

    // A refusal has its reason.
    ensures refused { IfErr result (λ error. RefusesAnswer asked bytes.now error) }

    // The answer or the refusal.
    ensures exact { Answers (λ a. a) result (read_answer asked bytes.now) }

    // Memory runs out only for an answer that carries a name or a text.
    ensures lacks { LacksText result (read_answer asked bytes.now) }
{
    read_answer(alloc, asked, bytes)
}
