//! Texts of several pieces.
ghost use Rattle.std.specs.Prelude.{◌<◌};
ghost use Rattle.pkg_world.specs.Steps.{CutsFirst};

/// The first piece of a text and what follows the mark behind it; None where the mark isn't in the text.
#[tactic(auto, using(crate::proofs::Cuts::pieces_split, crate::proofs::Cuts::pieces_one, crate::proofs::Cuts::after_mark, crate::proofs::Cuts::before_mark, crate::proofs::Cuts::no_mark))]
pub fn first_piece(text: &str, mark: char) -> Option<(&str, &str)>
    requires { mark < 128 }
    ensures { CutsFirst mark text.now result }
{
    text.split_once(mark)
}
