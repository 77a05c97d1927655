ghost use Rattle.std.specs.Prelude.{◌≡◌, length};
ghost use Rattle.juqabhino_c.specs.Handing.{Handed};

// Copies an answer into the room where it fits, and tells its length. The status is 5 where it does not fit.
pub(crate) fn hand_out(status: u8, output: &[u8], room: &mut [u8], told: &mut usize) -> u8
    ensures told { told.new ≡ length output.now }
    ensures handed { Handed output.now status room.old room.new result }
{
    *told = output.len();
    if output.len() > room.len() {
        return 5;
    }
    room[..output.len()].copy_from_slice(output);
    status
}
