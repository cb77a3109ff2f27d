//! What the form of a cube says of sizes.
ghost use Rattle.std.specs.Prelude.{◌≡◌, ◌≤◌};
ghost use Rattle.ice_map.specs.Maps.{longest};
ghost use Rattle.ice_map.specs.Own.{blocks_for};
ghost use Rattle.tree_spec.specs.Costs.{form_of};

use ice_base::Form;

/// The most bytes of a file.
#[tactic(auto, using(crate::proofs::SizeLaws::size_laws))]
pub fn longest_file<F: Form>() -> u32
    ensures value { result ≡ (form_of F.VERSION).longest_file }
    ensures one { result ≡ 274432 }
{
    274_432
}

/// How many blocks hold the bytes of a file.
#[tactic(auto, using(crate::proofs::SizeLaws::size_laws))]
pub fn map_length<F: Form>(bytes: u32) -> u32
    requires { bytes ≤ (form_of F.VERSION).longest_file }
    ensures value { result ≡ blocks_for bytes }
    ensures few { result ≤ longest }
{
    bytes.div_ceil(1024)
}
