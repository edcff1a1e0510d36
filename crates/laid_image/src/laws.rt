// The laws of the image of a written file.
ghost use Rattle.laid_image.specs.ImageLaws.{ImageLaws};

use memory::memory_laws;
use x86_code::code_laws;

/// Its clause is the laws of the image of a written file: it can be written, the code and the table stand where they should, and its memory is
/// that with which laid code begins.
pub fn image_laws()
    ensures { ImageLaws }
{
    memory_laws();
    code_laws();
}
