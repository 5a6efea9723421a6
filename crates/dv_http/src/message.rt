//! A message, and what is heard of one in the bytes so far.

use sqlite_items::Items;

/// Bytes, which contracts see as their list.
pub type Bytes = Items<u8>;

/// A request as it stands in the bytes: nothing in it is decoded.
#[derive(Drop)]
pub struct HttpMessage {
    /// The method, in the case in which it came.
    pub method: Bytes,
    /// The whole request target; `?` and `%` are plain characters of it.
    pub target: Bytes,
    /// The value of the first `Caller` header, without the white space around it.
    pub caller: Option<Bytes>,
    /// Whether the server closes the connection after this message: it is of HTTP/1.0, or one of its `Connection`
    /// headers has the whole value `close`, in any case.
    pub closes: bool,
    /// The body, which is empty where no `Content-Length` was given.
    pub body: Bytes,
}

/// What the bytes so far begin with.
#[derive(Drop)]
pub enum Heard {
    /// A message, which takes the first `used` of the bytes.
    Whole { message: HttpMessage, used: usize },
    /// No message yet; more bytes may bring one.
    NotYet,
    /// No message, whatever follows.
    Bad,
}
