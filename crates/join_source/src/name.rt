ghost use Rattle.std.specs.Prelude.{◌≡◌};
ghost use Rattle.target_names.specs.Names.{is_name};
ghost use Rattle.join_source.specs.Names.{is_member_name, is_netcdf};

use file_names::last_segment;
use target_names::is_name;

/// Whether these bytes are the name of a netCDF file, as a target may have it.
#[tactic(auto, unfolding(crate::specs::Names::is_member_name))]
pub fn is_member_name(name: &[u8]) -> bool
    ensures { result ≡ is_member_name name.now }
{
    is_name(name) && is_netcdf(name)
}

#[tactic(auto, unfolding(crate::specs::Names::is_netcdf))]
fn is_netcdf(name: &[u8]) -> bool
    ensures { result ≡ is_netcdf name.now }
{
    let segment = last_segment(name);
    segment.len() > 3 && segment.ends_with(b".nc")
}
