// One entry: a link written down as a number, and read back.
ghost use Rattle.std.specs.Prelude.{◌≡◌, ◌≤◌, length, get_or, set};
ghost use Rattle.tidy_holders.specs.Codes.{link_for, link_number, link_numbered, above_of};

use scope::{Link, Side};

// The link that holds each slot, as a number. A `Link` itself takes four times the room.
#[derive(Drop)]
pub struct Holders {
    pub links: [u32; 4096],
    pub ghost room: { length links ≡ 4096 },
}

// The number of a link. No `From`: a larger holder has no number.
pub fn link_number(holder: usize, side: Side) -> u32
    requires { holder ≤ 4095 }
    ensures { result ≡ link_number (link_for holder side) }
{
    match side {
        Side::Left => 2 * holder as u32,
        Side::Right => 2 * holder as u32 + 1,
    }
}

impl Holders {
    // Notes that slot k hangs on a side of a holder.
    pub fn note(&mut self, k: usize, holder: usize, side: Side)
        requires { (k ≤ 4095) × (holder ≤ 4095) }
        ensures { self.new.links ≡ set self.old.links k (link_number (link_for holder side)) }
    {
        self.links[k] = link_number(holder, side);
    }

    // The link that holds slot k.
    pub fn link(&self, k: usize) -> Link
        requires { k ≤ 4095 }
        ensures { result ≡ link_numbered (get_or self.now.links k 0) }
    {
        let q = self.links[k] as usize;
        let side = if q % 2 == 0 { Side::Left } else { Side::Right };
        Link {
            holder: q / 2,
            side,
        }
    }

    // The slot that holds slot k, or k itself at the root.
    pub fn above(&self, k: usize) -> usize
        requires { k ≤ 4095 }
        ensures { result ≡ above_of self.now.links k }
    {
        let holder = self.links[k] as usize / 2;
        if holder == 0 { k } else { holder }
    }
}
