//! A packet for a processor, and one for the slow path.

ghost use Rattle.std.specs.Prelude.{◌≡◌, ◌≤◌, length};
ghost use Rattle.packet_answer.specs.Answer.{IsAnswerable};
ghost use Rattle.scion_packet.specs.Header.{front_end};

use crate::came::Came;
use process_packet::Problem;
use std::alloc::AllocError;

/// A datagram whose header has no fault, as its path type says.
#[derive(Drop)]
pub struct Packet {
    pub came: Came,
    pub ghost addresses_are_there: { front_end came.bytes ≤ length came.bytes },
}

/// A packet without a fault, and what it is answered.
#[derive(Drop)]
pub struct Request {
    pub came: Came,
    pub problem: Problem,
    pub ghost packet_is_answerable: { IsAnswerable came.bytes problem },
}

impl Packet {
    ghost use Rattle.std.specs.Prelude.{IfOk};

    /// A copy, its bytes too. `Err` where no memory is left.
    pub fn try_clone(&self) -> Result<Packet, AllocError>
        ensures { IfOk result (λ packet. packet.came ≡ self.now.came) }
    {
        let came = self.came.try_clone()?;
        Ok(Packet { came })
    }
}

impl Request {
    ghost use Rattle.std.specs.Prelude.{IfOk};

    /// A copy, its bytes too. `Err` where no memory is left.
    pub fn try_clone(&self) -> Result<Request, AllocError>
        ensures came { IfOk result (λ request. request.came ≡ self.now.came) }
        ensures problem { IfOk result (λ request. request.problem ≡ self.now.problem) }
    {
        let came = self.came.try_clone()?;
        Ok(Request {
            came,
            problem: self.problem,
        })
    }
}
