// The pages of the stack that are forgotten whole.
ghost use Rattle.std.specs.Prelude.{◌≡◌, ℕ, ◌*◌, ◌<◌, Some, None};
ghost use Rattle.mem_pages.specs.Regions.{forget_between};
ghost use Rattle.mem_pages.specs.Directory.{contents, KeepsPlaces};
ghost use Rattle.mem_pages.specs.Exposed.{IsQuiet};

use crate::directory::Directory;
use crate::exposed::Exposed;
use crate::page::PAGE;

/// Makes the bytes of the stack in the pages below `end` unspecified. It goes over those alone that are listed.
pub fn sweep(directory: &mut Directory, exposed: &mut Exposed, end: u32)
    requires page { end < 1048576 }
    requires quiet { IsQuiet exposed.old directory.old }
    ensures places { (a : ℕ) → contents directory.new a ≡ forget_between 0 (4096 * end) (contents directory.old) a }
    ensures keeps { KeepsPlaces directory.old directory.new }
    ensures quiet { IsQuiet exposed.new directory.new }
{
    'pages: while let Some(number) = exposed.take_below(end) {
        directory.forget_part(number * PAGE, number * PAGE + PAGE);
    }
}
