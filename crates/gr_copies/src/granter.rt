ghost use Rattle.std.specs.Prelude.{◌≡◌, ◌↔◌, true, IsNone};
ghost use Rattle.std.specs.List.{All};
ghost use Rattle.gr_base.specs.Rising.{has, without as less};
ghost use Rattle.gr_base.specs.Places.{IsPlaces};
ghost use Rattle.gr_copies.specs.Granter.{granter};

use gr_base::{Directory, PlaceSet};

/// Who acts for a vertex when places are dead, and grants its new copies: the master, or else the next holder in
/// ring order after it that is not dead.
pub fn acting_master(dir: &Directory, dead: PlaceSet) -> Option<u8>
    requires { has dir.now.holders dir.now.master ≡ true }
    ensures granter { result ≡ granter dead dir.now.master dir.now.holders }
    ensures none { IsNone result ↔ All (λ q. has dead q ≡ true) dir.now.holders }
{
    dir.holders.difference(dead).first_from(dir.master)
}
