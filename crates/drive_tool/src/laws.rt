//! Laws of the definitions.
ghost use Rattle.std.specs.Prelude.{◌≡◌, ◌⊎◌, ℕ, Bool, List, Option};
ghost use Rattle.stapl_meaning.specs.declared.events.Ending.{Ending};
ghost use Rattle.stapl_meaning.specs.Plays.{Run};
ghost use Rattle.dev_card.specs.FarEnds.{FarEnd};
ghost use Rattle.play_words.specs.declared.requests.FilePlay.{FilePlay};
ghost use Rattle.play_tool.specs.Held.{ArePlayFilesHeld};
ghost use Rattle.drive_tool.specs.Words.{WireNames, AskToDrive, HasUsage};
ghost use Rattle.drive_tool.specs.Driven.{Session, IsDriven};
ghost use Rattle.drive_tool.specs.Plans.{Plan, drive, WordsPlan};

use board_text::laws::every_text_is_a_board_or_has_a_fault;
use stapl_checker::laws::each_text_is_a_program_or_has_a_fault;

/// All words ask for one play over one wire, or they are refused at one word, and never both.
pub fn words_ask_for_a_play_over_a_wire_or_are_refused()
    ensures each { (words : List (List ℕ)) →
        ((wire : WireNames) × (play : FilePlay) × AskToDrive words wire play) ⊎ ((n : ℕ) × HasUsage words n) }
    ensures one_play { (words : List (List ℕ)) (v w : WireNames) (a b : FilePlay) → AskToDrive words v a →
        AskToDrive words w b → (v ≡ w) × (a ≡ b) }
    ensures one_word { (words : List (List ℕ)) (n m : ℕ) → HasUsage words n → HasUsage words m → n ≡ m }
    ensures not_both { (words : List (List ℕ)) (n : ℕ) (wire : WireNames) (play : FilePlay) → HasUsage words n →
        AskToDrive words wire play → ⊥ }
{}

/// The words and the contents of their files come to at most one plan, and a play has waits sent or not.
pub fn one_plan()
    ensures plan { (words : List (List ℕ)) (contents : List (Option (List ℕ))) (s t : Bool) (p q : Plan) →
        WordsPlan words contents s p → WordsPlan words contents t q → p ≡ q }
    ensures waits { (words : List (List ℕ)) (contents : List (Option (List ℕ))) (s t pins : Bool)
        (plays : FarEnd → Run) → WordsPlan words contents s (drive pins plays) →
        WordsPlan words contents t (drive pins plays) → s ≡ t }
{}

/// Words come to a plan, whatever the files hold that they name.
pub fn words_come_to_a_plan()
    ensures { (words : List (List ℕ)) (contents : List (Option (List ℕ))) → ArePlayFilesHeld contents →
        (sleeps : Bool) × (plan : Plan) × WordsPlan words contents sleeps plan }
{
    every_text_is_a_board_or_has_a_fault();
    each_text_is_a_program_or_has_a_fault();
}

/// What is received in a play to its ending settles what is sent and written, and how the play ends.
pub fn what_is_received_settles_a_session()
    ensures { (sleeps pins : Bool) (plays : FarEnd → Run) (a b : Session) (e f : Ending) →
        IsDriven sleeps pins plays a e → IsDriven sleeps pins plays b f → a.received ≡ b.received →
        (a ≡ b) × (e ≡ f) }
{}
