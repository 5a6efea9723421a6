//! Answers as lines.
ghost use Rattle.std.specs.Prelude.{◌≡◌, ◌++◌, ◌∷◌, [], IfOk, codes};
ghost use Rattle.serde_json.specs.Data.{number, unsigned, object, no_members, member};
ghost use Rattle.serde_json.specs.View.{view};
ghost use Rattle.dv_service.specs.Answers.{answer_data, answer_line, refused};

use dv_print::print_reply;
use dv_refusal::Refusal;
use dv_request::Reply;
use dv_value::add_member;
use serde_json::{Map, Value as Json};
use std::alloc::{AllocError, Global};

/// What a line is answered.
#[derive(Drop)]
pub enum Answer {
    /// The organisation has begun, with so many tables.
    Opened(u64),
    /// The reply to a request.
    Replied(Reply),
}

// An object of one member.
fn one_json(alloc: Global, name: &str, value: Json) -> Result<Json, AllocError>
    ensures { IfOk result (λ json. view json ≡ object (member name.now (view value) no_members)) }
{
    let mut members: Map<String, Json> = Map::new(alloc);
    add_member(alloc, &mut members, name, value)?;
    Ok(Json::Object(members))
}

// The answer of an organisation that has begun, without its line feed.
#[tactic(auto, unfolding(crate::specs::Answers::answer_data))]
fn opened_json(alloc: Global, tables: u64) -> Result<Json, AllocError>
    ensures { IfOk result (λ json. view json ≡ answer_data (Answer.Opened tables)) }
{
    let count = one_json(alloc, "tables", Json::from(tables))?;
    one_json(alloc, "ok", count)
}

// The text with a line feed behind it.
fn ended(text: Vec<u8>) -> Result<Vec<u8>, AllocError>
    ensures { IfOk result (λ line. line.items ≡ text.items ++ 10 ∷ []) }
{
    let mut line = text;
    line.push(b'\n')?;
    Ok(line)
}

/// The line that tells of an organisation that has begun, with its line feed.
pub fn opened_line(alloc: Global, tables: u64) -> Result<Vec<u8>, AllocError>
    ensures { IfOk result (λ line. line.items ≡ answer_line (Answer.Opened tables)) }
{
    let json = opened_json(alloc, tables)?;
    ended(json.to_vec(alloc)?)
}

/// The line of a reply, with its line feed.
pub fn reply_line(alloc: Global, reply: &Reply) -> Result<Vec<u8>, AllocError>
    ensures { IfOk result (λ line. line.items ≡ answer_line (Answer.Replied reply.now)) }
{
    ended(print_reply(alloc, reply)?)
}

/// The line that tells a refusal.
pub fn refusal_line(alloc: Global, refusal: Refusal) -> Result<Vec<u8>, AllocError>
    ensures { IfOk result (λ line. line.items ≡ answer_line (Answer.Replied (refused refusal))) }
{
    let item = None;
    reply_line(alloc, &Reply::Refused { refusal, item })
}
