//! The word of the ring, written and read by the codes of `specs/Words.antt`.
ghost use Rattle.std.specs.Prelude.{◌≡◌};
ghost use Rattle.ring_core.specs.declared.states.Token.TheVariants.{At};
ghost use Rattle.post_board.specs.Words.{token_read, word_of_token};
ghost use Rattle.post_board.specs.BoardWork.{ring_read};

use crate::answers::Ring;
use ring_core::Colour;

/// The word of a token at this place.
pub(crate) fn word_at(place: u32, colour: Colour) -> u64
    ensures { result ≡ word_of_token (At place colour) }
{
    match colour {
        Colour::White => 2 * (place as u64) + 1,
        Colour::Black => 2 * (place as u64) + 2,
    }
}

/// The place of the token, as the word of the ring says it to a rank.
#[tactic(auto, unfolding(crate::specs::Words::token_read))]
pub(crate) fn read_ring(found: u64, me: u32) -> Ring
    ensures { result ≡ ring_read (token_read found) me }
{
    if found == 0 {
        return Ring::Over;
    }
    let place = (found - 1) / 2;
    let rest = (found - 1) % 2;
    if place == me as u64 {
        if rest == 0 {
            Ring::Here(Colour::White)
        } else {
            Ring::Here(Colour::Black)
        }
    } else {
        Ring::Elsewhere
    }
}
