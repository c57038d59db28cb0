// A location's region, as the numbers tell it that are kept of each: the place of its first row, and how many rows it has.
ghost use Rattle.std.specs.Prelude.{◌≡◌, ◌+◌, ◌*◌, ◌≤◌, ◌<◌, length};
ghost use Rattle.models.specs.Index.{entry};

// How many rows a location's region has.
pub fn region_rows(regions: &[u16], location: u32) -> u32
    requires { (128 ≤ length regions.now) × (location < 64) }
    ensures { result ≡ entry regions.now (2 * location + 1) }
{
    regions[2 * (location as usize) + 1] as u32
}
