//! Workers over their devices.

ghost use Rattle.std.specs.Prelude.{◌≡◌, ◌≤◌, [], length, vec_capacity};
ghost use Rattle.order_laws.specs.Deeds.{Each};
ghost use Rattle.run_workers.specs.Kits.{paired};

use run_ends::Line;

/// All that a worker `W` is made of but its device `D`.
pub trait Over<D, W> {
    ghost use Rattle.std.specs.Prelude.{◌≡◌};

    /// What the device is to be.
    ghost fits: { D → Type 0 };

    /// The worker over it.
    ghost worker: { Self → D → W };

    /// The worker over a device.
    fn over(self, device: D) -> W
        requires { fits device }
        ensures { result ≡ worker self device };
}

/// The workers over their devices, each over its own. It takes no memory.
pub fn over_each<P: Over<D, W>, D, W>(parts: Vec<P>, devices: Vec<D>, room: Vec<W>) -> Vec<W>
    requires count { length devices.items ≡ length parts.items }
    requires fit { Each (λ d. P.fits d) devices.items }
    requires room { (room.items ≡ []) × (length parts.items ≤ vec_capacity room) }
    ensures { result.items ≡ paired P.worker parts.items devices.items }
{
    let count = parts.len();
    let mut parts = Line::of(parts);
    let mut devices = Line::of(devices);
    let mut workers = room;
    for k in 0..count {
        let device = devices.next();
        workers.push_reserved(parts.next().over(device));
    }
    parts.destroy_empty();
    devices.destroy_empty();
    workers
}
