//! Laws of the definitions.
ghost use Rattle.std.specs.Prelude.{◌≡◌, ◌⊎◌, ℕ, List, true};
ghost use Rattle.dev_card.specs.declared.desc.Desc.{Desc};
ghost use Rattle.board_text.specs.declared.reason.BoardReason.{BoardReason};
ghost use Rattle.board_text.specs.declared.shapes.Shape.{Shape};
ghost use Rattle.board_text.specs.Shapes.{fits, places_of};
ghost use Rattle.board_text.specs.Boards.{IsBoard, IsFirstFault, CanBeFitted};

/// Words have one shape at most.
pub fn words_have_one_shape()
    ensures { (words : List (List ℕ)) (s t : Shape) → fits (places_of s) words ≡ true →
        fits (places_of t) words ≡ true → s ≡ t }
{}

/// Each text is a board, or has a first fault.
pub fn every_text_is_a_board_or_has_a_fault()
    ensures { (text : List ℕ) → ((devices : List Desc) × IsBoard text devices)
        ⊎ ((line : ℕ) × (reason : BoardReason) × IsFirstFault text line reason) }
{}

/// A text is a board of at most one list of devices.
pub fn one_board()
    ensures { (text : List ℕ) (a b : List Desc) → IsBoard text a → IsBoard text b → a ≡ b }
{}

/// A text has at most one first fault.
pub fn one_first_fault()
    ensures { (text : List ℕ) (m n : ℕ) (r s : BoardReason) → IsFirstFault text m r → IsFirstFault text n s →
        (m ≡ n) × (r ≡ s) }
{}

/// A text that is a board has no fault.
pub fn no_board_has_a_fault()
    ensures { (text : List ℕ) (devices : List Desc) (n : ℕ) (r : BoardReason) → IsBoard text devices →
        IsFirstFault text n r → ⊥ }
{}

/// The devices of each board can be fitted: there is one at least, there are at most as many as a board may have, and
/// each is good.
pub fn each_board_can_be_fitted()
    ensures { (text : List ℕ) (devices : List Desc) → IsBoard text devices → CanBeFitted devices }
{}
