// What a sheet's version decides: which versions and kinds its header may have, which second sheets go with a model, whether its body begins
// with a paper number, how many bytes a row has, whether a row is strict, and whether a variable that no row mentions keeps its value.
// Versions and kinds are the numbers that their bytes have, 1, 2, 3: the definitions test them so, and an enum would need a name for each
// number that is refused.
ghost use Rattle.std.specs.Prelude.{◌≡◌, ◌*◌, ◌≤◌, ◌<◌};
ghost use Rattle.formats.specs.Versions.{version_fits, pair_of, has_paper, kind_fits, row_bytes, strict_at, keeps_blanks};

// So many bytes stand before a sheet's body: two of its length, one of its version, one of its kind.
pub const HEADER_LENGTH: usize = 4;

// The newest version.
const NEWEST: u32 = 3;

// Whether a sheet of this kind may have this version: a model any, another sheet any but 2.
pub fn version_fits(kind: u32, version: u32) -> bool
    ensures { result ≡ version_fits kind version }
{
    if version < 1 {
        return false;
    }
    if NEWEST < version {
        return false;
    }
    if kind == 1 {
        return true;
    }
    version != 2
}

// The version of the second sheet of a model.
pub fn pair_of(version: u32) -> u32
    ensures { result ≡ pair_of version }
{
    if version <= 2 { 1 } else { version }
}

// Whether a sheet's body begins with a paper number.
pub fn has_paper(version: u32) -> bool
    ensures { result ≡ has_paper version }
{
    3 <= version
}

// Whether a sheet may have this kind where one of the first kind is wanted.
pub fn kind_fits(kind: u32, found: u32) -> bool
    ensures { result ≡ kind_fits kind found }
{
    found == kind
}

// How many bytes a row with n coefficients has: four for each, and four for the bound.
pub fn row_bytes(version: u32, n: usize) -> usize
    requires { n ≤ 16 }
    ensures { result ≡ row_bytes version n }
{
    4 * (n + 1)
}

// How many bytes so many rows have.
pub fn rows_bytes(version: u32, n: usize, count: usize) -> usize
    requires { (n ≤ 16) × (count < 65536) }
    ensures { result ≡ row_bytes version n * count }
{
    row_bytes(version, n) * count
}

// Whether the row at a place is strict: none is. The sheet is handed over for the contract.
pub fn is_strict(version: u32, s: &[u8], at: usize) -> bool
    ensures { result ≡ strict_at version s.now at }
{
    false
}

// Whether a variable that no row mentions keeps its value.
pub fn keeps_blanks(version: u32) -> bool
    ensures { result ≡ keeps_blanks version }
{
    2 <= version
}
