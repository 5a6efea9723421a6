//! The public call: the words of the command line, the input, the output and the clock.
ghost use Rattle.std.specs.Prelude.{◌≡◌, ◌≢◌, ◌↔◌, ◌<◌, ◌⊎◌, IsTrue, IfSome, length, true};
ghost use Rattle.dv_base.specs.Faults.{Rose};
ghost use Rattle.dv_service.specs.Lines.{lines_of};
ghost use Rattle.dv_service.specs.Outcome.{AreRun, IsOpened};
ghost use Rattle.dv_service.specs.Outcome.{RanToEnd, NotOpened, CutShort};
ghost use Rattle.dv_service.specs.Outcome.{StoppedBelowLimit, StoppedAtLimit};
ghost use Rattle.dv_service.specs.Outside.{outside};
ghost use Rattle.dv_service.specs.Statuses.{is_status};
ghost use Rattle.dv_service.specs.declared.run.TheConstants.{INPUT_LIMIT};

use crate::run::run;
use crate::status::Status;
use dv_base::{Clock, Sink, Source};
use std::alloc::Global;

// Whether the words ask for a run.
fn is_run(words: &[String]) -> bool
    ensures { IsTrue result ↔ AreRun words.now }
{
    words.len() == 1 && words[0].as_str() == "run"
}

/// Runs the service: reads lines from `input` and writes a line to `output` for each.
///
/// `words` are the words after the program's name. The first line is the organisation's definition;
/// the organisation stands in memory for this run alone. The clock is asked once for each line that
/// has a request. No clause says that a line is answered before more input is asked for; it is, as
/// soon as the line has ended.
pub fn top<S: Source, W: Sink, C: Clock>(
    alloc: Global,
    words: &[String],
    input: &mut S,
    output: &mut W,
    clock: &mut C,
) -> Status
    // All lines of the input were answered by the machine, from its first to its last, and nothing
    // else was written.
    ensures finished { result.0 ≡ 0
        → RanToEnd (S.left input.old) (S.left input.new)
        (outside (W.written output.old) (C.state clock.old))
        (outside (W.written output.new) (C.state clock.new)) }

    // The words are no command: nothing was read, written or asked of the clock.
    ensures bad_words { (result.0 ≡ 2) ↔ ¬ (AreRun words.now) }
    ensures bad_words_read { result.0 ≡ 2 → S.left input.new ≡ S.left input.old }
    ensures bad_words_wrote { result.0 ≡ 2 → W.written output.new ≡ W.written output.old }
    ensures bad_words_clock { result.0 ≡ 2 → C.state clock.new ≡ C.state clock.old }

    // There is no definition line, or no organisation begins by the first line.
    ensures not_opened { result.0 ≡ 3
        → NotOpened (S.left input.old) (S.left input.new)
        (outside (W.written output.old) (C.state clock.old))
        (outside (W.written output.new) (C.state clock.new)) }

    // The input failed: the lines that ended in the bytes taken were answered.
    ensures read_fault { result.0 ≡ 5 → Rose (S.read_faults input.old) (S.read_faults input.new) }
    ensures read_stopped { result.0 ≡ 5
        → StoppedBelowLimit (S.left input.old) (S.left input.new)
        (outside (W.written output.old) (C.state clock.old))
        (outside (W.written output.new) (C.state clock.new)) }

    // The output failed: one line's reply was cut short, and no later line was answered.
    ensures write_fault { result.0 ≡ 6
        → Rose (W.write_faults output.old) (W.write_faults output.new) }
    ensures cut_short { result.0 ≡ 6
        → CutShort (S.left input.old) (S.left input.new)
        (outside (W.written output.old) (C.state clock.old))
        (outside (W.written output.new) (C.state clock.new)) }

    // The run ends at its first fault: whatever else ends it, no fault was counted.
    ensures no_read_fault { result.0 ≢ 5 → S.read_faults input.new ≡ S.read_faults input.old }
    ensures no_write_fault { result.0 ≢ 6 → W.write_faults output.new ≡ W.write_faults output.old }

    // Nothing was written: memory ran out before anything was answered.
    ensures out_of_memory { result.0 ≡ 9 → W.written output.new ≡ W.written output.old }
    ensures out_of_memory_clock { result.0 ≡ 9 → C.state clock.new ≡ C.state clock.old }

    // As much input was taken as a run takes.
    ensures input_limit { result.0 ≡ 10
        → StoppedAtLimit (S.left input.old) (S.left input.new)
        (outside (W.written output.old) (C.state clock.old))
        (outside (W.written output.new) (C.state clock.new)) }

    // There is no other status.
    ensures known { is_status result.0 ≡ true }

    // An input below the limit is read to its end where an organisation begins by its first line, and
    // is refused where none does, unless an end fails or memory runs out.
    ensures complete { AreRun words.now → ¬ Rose (S.read_faults input.old) (S.read_faults input.new)
        → ¬ Rose (W.write_faults output.old) (W.write_faults output.new)
        → IfSome (S.left input.old) (λ bytes. length bytes < INPUT_LIMIT → IsOpened (lines_of bytes)
        → (result.0 ≡ 0) ⊎ (result.0 ≡ 9)) }
    ensures refuses { AreRun words.now → ¬ Rose (S.read_faults input.old) (S.read_faults input.new)
        → ¬ Rose (W.write_faults output.old) (W.write_faults output.new)
        → IfSome (S.left input.old) (λ bytes. length bytes < INPUT_LIMIT
        → ¬ (IsOpened (lines_of bytes)) → (result.0 ≡ 3) ⊎ (result.0 ≡ 9)) }
{
    if is_run(words) {
        run(alloc, input, output, clock).status()
    } else {
        Status::BAD_WORDS
    }
}
