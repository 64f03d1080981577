//! In which order statements stand (JESD71, program structure).
ghost use Rattle.std.specs.Prelude.{◌≡◌};
ghost use Rattle.std.specs.Box.{box_value};
ghost use Rattle.std.specs.Option.{option_map};
ghost use Rattle.stapl_syntax.specs.Trees.{body_tree};
ghost use Rattle.stapl_syntax.specs.Rules.{is_outside, may_stand_inside, may_stand};
ghost use Rattle.checker_rules.specs.Places.{place_of};

use stapl_lexer::Name;
use stapl_syntax::Body;

/// What stood before a piece.
#[derive(Clone, Copy)]
pub struct Place {
    /// A procedure is open.
    pub in_procedure: bool,
    /// A DATA block is open.
    pub in_data: bool,
    /// An ACTION stood before.
    pub after_action: bool,
    /// A PROCEDURE or DATA stood before.
    pub after_block: bool,
    /// A CRC stood before.
    pub after_crc: bool,
}

impl Place {
    // Whether it lies outside blocks.
    fn is_outside(self) -> bool
        ensures { result ≡ is_outside (place_of self) }
    {
        !(self.in_procedure || self.in_data)
    }

    // Whether a statement of procedures may stand there. A declaration without a label may stand in a DATA block too.
    fn may_stand_inside(self, label: &Option<Box<Name>>, is_declaration: bool) -> bool
        ensures { result ≡ may_stand_inside (place_of self) (option_map box_value label.now) is_declaration }
    {
        if label.is_none() && is_declaration {
            self.in_procedure || self.in_data
        } else {
            self.in_procedure
        }
    }

    /// Whether a statement with this label may stand there.
    pub(crate) fn may_stand(self, label: &Option<Box<Name>>, body: &Body) -> bool
        ensures { result ≡ may_stand (place_of self) (option_map box_value label.now) (body_tree body.now) }
    {
        match body {
            Body::Note(_, _) => {
                self.is_outside() && !(self.after_action || self.after_block || self.after_crc)
            }
            Body::Action(_, _, _) => self.is_outside() && !(self.after_block || self.after_crc),
            Body::Procedure(_, _) | Body::Data(_) | Body::Crc(_) => {
                self.is_outside() && !self.after_crc
            }
            Body::EndProcedure => self.in_procedure,
            Body::EndData => self.in_data,
            _ => self.may_stand_inside(label, body.declaration().is_some()),
        }
    }
}
