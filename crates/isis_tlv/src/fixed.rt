//! Building fixed-size octet sequences.
ghost use Rattle.std.specs.Prelude.{◌≡◌, ◌+◌, ◌≤◌, ◌++◌, length};
ghost use Rattle.arrayvec.specs.ArrayVec.{array_vec_len};

use arrayvec::ArrayVec;

/// Appends octets. Precondition: there is room for them.
pub fn put<const N: usize>(head: &mut ArrayVec<u8, N>, octets: &[u8])
    requires { array_vec_len head.old + length octets.now ≤ N }
    ensures items { head.new.items ≡ head.old.items ++ octets.now }
    ensures len { array_vec_len head.new ≡ array_vec_len head.old + length octets.now }
{
    head.try_extend_from_slice(octets).unwrap()
}
