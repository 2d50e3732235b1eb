ghost use Rattle.std.specs.Prelude.{◌≡◌, ◌≢◌, ◌⊎◌, ◌∷◌, [], IfOk, IfSome, IfNone};

use frame_wire::Head;
use journal_book::AnswerView;
use script_text::HeadsLeft;
use std::alloc::AllocError;

/// The next header, where the answer is one of the stream and one is left. It is then no longer left.
pub(crate) fn head_for(
    stream: usize,
    left: &mut HeadsLeft,
    answer: &AnswerView<'_>,
) -> Result<Option<Head>, AllocError>
    ensures some { IfOk result (λ next. IfSome next (λ asked.
        (answer.now.stream ≡ stream) × (left.old ≡ asked ∷ left.new))) }
    ensures none { IfOk result (λ next. IfNone next (((answer.now.stream ≢ stream) × (left.new ≡ left.old))
        ⊎ ((left.old ≡ []) × (left.new ≡ [])))) }
{
    if usize::from(answer.stream) == stream {
        left.next()
    } else {
        Ok(None)
    }
}
