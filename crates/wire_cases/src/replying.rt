//! A reply by its name and its fields, as `{"reply":"Created","id":26}`, and the bytes that it is printed as.
use crate::fields::{count, field, flag, id, list, number, raw, row, signed, text, word};
use crate::refusing::refusal;
use case_notation::{Fault, found};
use dv_print::print_reply;
use dv_request::{Change, Reply, Share};
use dv_value::{Id, Token, Values};
use serde_json::Value as Json;
use sqlite_items::Items;
use std::alloc::Global;

/// The bytes that a reply is printed as.
pub fn printed(alloc: Global, input: &str) -> Result<String, Fault> {
    let Ok(json) = Json::from_str(alloc, input) else {
        return Err(Fault::Wrong("no JSON"));
    };
    match batch(alloc, &json) {
        Ok(reply) => text_of(alloc, &reply),
        Err(fault) => Err(fault),
    }
}

fn text_of(alloc: Global, reply: &Reply) -> Result<String, Fault> {
    match print_reply(alloc, reply) {
        Ok(bytes) => string_of(alloc, bytes.as_slice()),
        Err(error) => Err(Fault::from(error)),
    }
}

fn string_of(alloc: Global, bytes: &[u8]) -> Result<String, Fault> {
    let text = str::from_utf8(bytes)?;
    Ok(String::from_str(alloc, text)?)
}

// A reply, or those of a batch, in which batches may stand.
fn batch(alloc: Global, fields: &Json) -> Result<Reply, Fault> {
    if !is_batch(fields) {
        return single(alloc, fields);
    }
    let mut replies = Items::new(alloc);
    for reply in list(fields, "replies")? {
        replies.push(inner_batch(alloc, reply)?)?;
    }
    Ok(Reply::Replies { replies })
}

// A reply, or those of a batch in a batch.
fn inner_batch(alloc: Global, fields: &Json) -> Result<Reply, Fault> {
    if !is_batch(fields) {
        return single(alloc, fields);
    }
    let mut replies = Items::new(alloc);
    for reply in list(fields, "replies")? {
        replies.push(single(alloc, reply)?)?;
    }
    Ok(Reply::Replies { replies })
}

fn is_batch(fields: &Json) -> bool {
    matches!(word(fields, "reply"), Ok("Replies"))
}

fn single(alloc: Global, fields: &Json) -> Result<Reply, Fault> {
    if fields.get("refusal").is_some() {
        return refused(alloc, fields);
    }
    match word(fields, "reply")? {
        "Done" => Ok(Reply::Done),
        "Created" => created(fields),
        "Found" => found_row(alloc, fields),
        "Rights" => rights(fields),
        "Shares" => shares(alloc, fields),
        "Page" => page(alloc, fields),
        "Changes" => changes(alloc, fields),
        "Rolled" => rolled(fields),
        "Calculated" => calculated(fields),
        "Caller" => caller(alloc, fields),
        _ => Err(Fault::Wrong("no reply")),
    }
}

fn refused(alloc: Global, fields: &Json) -> Result<Reply, Fault> {
    let item = optional_count(fields, "item")?;
    let refusal = refusal(alloc, fields)?;
    Ok(Reply::Refused { refusal, item })
}

fn created(fields: &Json) -> Result<Reply, Fault> {
    let id = id(fields, "id")?;
    Ok(Reply::Created { id })
}

fn found_row(alloc: Global, fields: &Json) -> Result<Reply, Fault> {
    let row = row(alloc, field(fields, "row")?)?;
    Ok(Reply::Found { row })
}

fn rights(fields: &Json) -> Result<Reply, Fault> {
    let rights = count(fields, "rights")?;
    Ok(Reply::Rights { rights })
}

fn rolled(fields: &Json) -> Result<Reply, Fault> {
    let state = signed(fields, "state")?;
    let value = raw(fields, "value")?;
    Ok(Reply::Rolled { state, value })
}

fn calculated(fields: &Json) -> Result<Reply, Fault> {
    let calculated = number(fields, "calculated")?;
    Ok(Reply::Calculated { calculated })
}

fn caller(alloc: Global, fields: &Json) -> Result<Reply, Fault> {
    let user = id(fields, "user")?;
    let unit = id(fields, "unit")?;
    let teams = ids(alloc, list(fields, "teams")?)?;
    Ok(Reply::Caller { user, unit, teams })
}

fn page(alloc: Global, fields: &Json) -> Result<Reply, Fault> {
    let more = flag(fields, "more")?;
    let total = optional_count(fields, "total")?;
    let over = match fields.get("over") {
        Some(_) => Some(flag(fields, "over")?),
        None => None,
    };
    let cookie = match fields.get("cookie") {
        Some(_) => Some(text(alloc, fields, "cookie")?),
        None => None,
    };
    let rows = rows(alloc, list(fields, "rows")?)?;
    Ok(Reply::Page {
        rows,
        more,
        cookie,
        total,
        over,
    })
}

fn optional_count(fields: &Json, name: &str) -> Result<Option<u32>, Fault> {
    match fields.get(name) {
        Some(_) => Ok(Some(count(fields, name)?)),
        None => Ok(None),
    }
}

fn rows(alloc: Global, list: &[Json]) -> Result<Items<Values>, Fault> {
    let mut rows = Items::new(alloc);
    for json in list {
        rows.push(row(alloc, json)?)?;
    }
    Ok(rows)
}

fn ids(alloc: Global, list: &[Json]) -> Result<Items<Id>, Fault> {
    let mut ids = Items::new(alloc);
    for json in list {
        let number = found(json.as_u64(), "no number of an id")?;
        ids.push(Id(u128::from(number)))?;
    }
    Ok(ids)
}

fn shares(alloc: Global, fields: &Json) -> Result<Reply, Fault> {
    let mut shares = Items::new(alloc);
    for json in list(fields, "shares")? {
        shares.push(share(json)?)?;
    }
    Ok(Reply::Shares { shares })
}

fn share(json: &Json) -> Result<Share, Fault> {
    let principal = id(json, "principal")?;
    let direct = count(json, "direct")?;
    let inherited = count(json, "inherited")?;
    Ok(Share {
        principal,
        direct,
        inherited,
    })
}

fn changes(alloc: Global, fields: &Json) -> Result<Reply, Fault> {
    let more = flag(fields, "more")?;
    let token = token(field(fields, "token")?)?;
    let mut changes = Items::new(alloc);
    for json in list(fields, "changes")? {
        changes.push(change(alloc, json)?)?;
    }
    Ok(Reply::Changes {
        changes,
        more,
        token,
    })
}

fn change(alloc: Global, json: &Json) -> Result<Change, Fault> {
    if let Some(json) = json.get("row") {
        let row = row(alloc, json)?;
        return Ok(Change::Row { row });
    }
    let id = id(json, "removed")?;
    let version = number(json, "version")?;
    Ok(Change::Removed { id, version })
}

fn token(json: &Json) -> Result<Token, Fault> {
    let start = number(json, "start")?;
    let place = number(json, "place")?;
    Ok(Token { start, place })
}
