//! A page that stays the same.

use metrics_server::Page;
use std::alloc::AllocError;

/// The page `up 1`, a line.
#[derive(Drop)]
pub struct FixedPage;

impl Page for FixedPage {
    ghost use Rattle.std.specs.Prelude.{◌≡◌, codes};
    ghost use Rattle.std.proofs.Common.{refl, ◌∙◌};

    ghost shows = { λ old page new. page ≡ codes "up 1\n" };

    ghost becomes = { λ old new. new ≡ old };

    ghost becomes_self = { λ x. refl };

    ghost becomes_then = { λ x y z p q. q ∙ p };

    fn push(&mut self, text: &mut Vec<u8>) -> Result<(), AllocError> {
        text.extend_from_slice(b"up 1\n")
    }
}
