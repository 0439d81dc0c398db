//! What the schemes of checkpoints are called, and their numbers.
ghost use Rattle.std.specs.Prelude.{◌≡◌};
ghost use Rattle.thy_block.specs.Schemes.{scheme_name, scheme_number};

use crate::SchemeName;

impl SchemeName {
    /// The scheme's name, as options and reports spell it.
    pub fn name(self) -> &'static str
        ensures { result.now ≡ scheme_name self }
    {
        match self {
            SchemeName::Thynvm => "thynvm",
            SchemeName::Journal => "journal",
            SchemeName::Shadow => "shadow",
        }
    }

    /// The scheme's number in the header of an image: 0, 1 or 2, in the order of the variants.
    pub fn number(self) -> u64
        ensures { result ≡ scheme_number self }
    {
        match self {
            SchemeName::Thynvm => 0,
            SchemeName::Journal => 1,
            SchemeName::Shadow => 2,
        }
    }
}
