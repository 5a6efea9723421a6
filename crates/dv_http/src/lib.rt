//! HTTP messages out of bytes that arrive in pieces cut anywhere.
//!
//! [`next_message`] tells whether the bytes so far begin with a whole message, and with which one; whether they are
//! [`Heard::Bad`], so that no message can come of them; or whether more bytes are awaited. Where the input was cut
//! changes none of the messages, which the functions of `laws` state. A head is what `httparse` reads (RFC 9112,
//! sections 2 to 5), with the limits and the rules on the body that docs/FORMATS.md lists.
#![tactic(auto)]

mod headers;
mod laws;
mod limits;
mod lines;
mod message;
mod next;

pub use laws::{
    a_cut_changes_no_message, a_message_is_not_hopeless, an_input_has_one_list_of_messages,
    hopeless_bytes_stay_hopeless,
};
pub use limits::{HEAD_LIMIT, MAX_BODY, MAX_HEADERS, MAX_LENGTH_DIGITS};
pub use message::{Bytes, Heard, HttpMessage};
pub use next::next_message;
