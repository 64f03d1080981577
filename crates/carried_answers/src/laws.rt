//! Laws of what the player answers.
ghost use Rattle.std.specs.Prelude.{◌↔◌, ℕ, List, Option};
ghost use Rattle.play_words.specs.declared.status.Status.{Status};
ghost use Rattle.play_tool.specs.Answers.{RequestAnswer};
ghost use Rattle.play_words.specs.declared.requests.FilePlay.{FilePlay};
ghost use Rattle.play_words.specs.declared.requests.Request.TheVariants.{Play};
ghost use Rattle.carried_answers.specs.CarriedRequests.{carried_play, with_program, IsCarriedRequest};

use carried_padding::laws::a_carried_text_plays_as_its_program_with_base_padding;

/// The player answers a request for a play of a program for a run of a board exactly as the request for the text that
/// carries the padding for the run, in whatever file, without a place and for five turns more: the same text, with pins
/// or without, and the same status.
pub fn a_carried_text_is_answered_alike()
    ensures { (play : FilePlay) (contents : List (Option (List ℕ))) (path new : List ℕ) →
        IsCarriedRequest play.request contents new → (written : List ℕ) (status : Status) →
        RequestAnswer (Play play) contents written status
        ↔ RequestAnswer (Play (carried_play path play)) (with_program new contents) written status }
{
    a_carried_text_plays_as_its_program_with_base_padding();
}
