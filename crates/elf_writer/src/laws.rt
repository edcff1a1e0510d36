// What the written file means.
ghost use Rattle.elf_writer.specs.Laws.{DataStarts, LengthOfWritten, PlainIsWritten, ReadImagesCanBeWritten, WrittenIsAccepted};

use elf_image::image_laws;

/// Does nothing: its clauses say that the wide room reads an image again from the file that is written for it, how long
/// this file is, what it is for an image of one page of code and one of zeros, and where the bytes of segments begin.
pub fn writer_laws()
    ensures accepted { WrittenIsAccepted }
    ensures size { LengthOfWritten }
    ensures plain { PlainIsWritten }
    ensures starts { DataStarts }
{}

/// Does nothing: its clause says that the image of every file that a room accepts can be written.
pub fn read_images_can_be_written()
    ensures { ReadImagesCanBeWritten }
{
    image_laws();
}
