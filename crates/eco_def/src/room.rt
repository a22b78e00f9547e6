//! How many more statements may stand.

ghost use Rattle.std.specs.Prelude.{◌≡◌, ◌-◌, length};
ghost use Rattle.eco_def.specs.Sections.{room_less};

use crate::design::NetStatement;

/// How many more net statements, of NETS and SPECIALNETS together, and how many more joints may stand.
#[derive(Clone, Copy, Debug, Drop, PartialEq, Eq)]
pub struct Room {
    pub nets: usize,
    pub joints: usize,
}

impl Room {
    /// The room after one more statement.
    pub fn behind(self, net: &NetStatement) -> Room
        ensures { result ≡ record { nets = self.nets - 1; joints = self.joints - length net.now.joints } }
    {
        Room {
            nets: self.nets.saturating_sub(1),
            joints: self.joints.saturating_sub(net.joints.len()),
        }
    }

    /// The room after some statements.
    pub fn behind_all(self, nets: &[NetStatement]) -> Room
        ensures { result ≡ room_less self nets.now }
    {
        let mut room = self;
        'statements: for net in nets {
            room = room.behind(net);
        }
        room
    }
}
