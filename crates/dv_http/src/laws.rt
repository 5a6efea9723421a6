//! Where the input is cut changes nothing. The calls do nothing: what they ensure are the laws.
ghost use Rattle.std.specs.Prelude.{◌≡◌, ℕ, List, ◌++◌, take, All, IsTrue, false};
ghost use Rattle.std.specs.List.{list_any};
ghost use Rattle.dv_http.specs.declared.message.HttpMessage.{HttpMessage};
ghost use Rattle.dv_http.specs.Message.{BeginsWithMessage};
ghost use Rattle.dv_http.specs.Hopeless.{IsHopeless};
ghost use Rattle.dv_http.specs.Stream.{Messages};

/// Bytes that begin with a message aren't hopeless, wherever they are cut.
pub fn a_message_is_not_hopeless()
    ensures { (bytes : List ℕ) (message : HttpMessage) (used cut : ℕ)
        → BeginsWithMessage bytes message used → ¬ (IsHopeless (take cut bytes)) }
{}

/// Hopeless bytes stay hopeless, whatever follows.
pub fn hopeless_bytes_stay_hopeless()
    ensures { (bytes more : List ℕ) → IsHopeless bytes → IsHopeless (bytes ++ more) }
{}

/// The messages of the bytes so far, and then those of their rest and of what follows, are the messages of the whole.
/// Once a message closes the connection, nothing that follows counts.
pub fn a_cut_changes_no_message()
    ensures goes_on { (first more : List ℕ) (before later : List HttpMessage) (left rest : List ℕ)
        → Messages first before left → All (λ message. message.closes ≡ false) before
        → Messages (left ++ more) later rest → Messages (first ++ more) (before ++ later) rest }
    ensures closed { (first more : List ℕ) (messages : List HttpMessage) (rest : List ℕ)
        → Messages first messages rest → IsTrue (list_any (λ message. message.closes) messages)
        → Messages (first ++ more) messages rest }
{}

/// An input has one list of messages, and one rest.
pub fn an_input_has_one_list_of_messages()
    ensures { (bytes : List ℕ) (one other : List HttpMessage) (left rest : List ℕ)
        → Messages bytes one left → Messages bytes other rest → (one ≡ other) × (left ≡ rest) }
{}
