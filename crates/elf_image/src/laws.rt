// What the definitions say of accepted files, of plain files, and of files and headers that are written out.
ghost use Rattle.elf_image.specs.Laws.{AcceptedFits, SourceIsAny};
ghost use Rattle.elf_image.specs.Plain.{PlainIsAccepted, PlainIsRead};
ghost use Rattle.elf_image.specs.HeaderRows.{FieldPlaces, HeaderCauses, HeaderPairs, HeaderTypes};
ghost use Rattle.elf_image.specs.RefusalRows.{OrderOfCauses, PrintedNames};
ghost use Rattle.elf_image.specs.SegmentRows.{CodeSpans, Entries, FlagSets, ImageSizes, PagesShared, RoomRanges, SegmentPairs, SizesAndOffsets, WholePages, ZeroTails};
ghost use Rattle.elf_image.specs.Rows.{EmptyFile, MagicAlone, PlainCode, SevenFile, WritableCode, LinkedFile};

/// Does nothing: its clauses are the laws of accepted files, and those by which the plain form agrees with the definition
/// of an image.
pub fn image_laws()
    ensures source_is_any { SourceIsAny }
    ensures fits { AcceptedFits }
    ensures plain_is_accepted { PlainIsAccepted }
    ensures plain_is_read { PlainIsRead }
{}

/// Does nothing: its clauses are worked rows, the images of files that are written out, or their refusals.
pub fn worked_images()
    ensures empty_file { EmptyFile }
    ensures magic_alone { MagicAlone }
    ensures seven_file { SevenFile }
    ensures plain_code { PlainCode }
    ensures writable_code { WritableCode }
    ensures linked_file { LinkedFile }
{}

/// Does nothing: its clauses are worked rows, the order of the causes of a refusal and their printed names.
#[tactic(auto, using(crate::proofs::RefusalRows::order_of_causes, crate::proofs::RefusalRows::printed_names))]
pub fn worked_refusals()
    ensures order { OrderOfCauses }
    ensures names { PrintedNames }
{}

/// Does nothing: its clauses are worked rows, files of a header and a few program headers, with the causes that hold of each.
#[tactic(auto, using(crate::proofs::HeaderRows::field_places, crate::proofs::HeaderRows::header_types, crate::proofs::HeaderRows::header_causes, crate::proofs::HeaderRows::header_pairs))]
pub fn worked_headers()
    ensures fields { FieldPlaces }
    ensures types { HeaderTypes }
    ensures causes { HeaderCauses }
    ensures pairs { HeaderPairs }
{}

/// Does nothing: its clauses are worked rows, lists of segments at each limit and past it, with the causes that hold of each.
#[tactic(auto, using(crate::proofs::SegmentRows::code_spans, crate::proofs::SegmentRows::image_sizes, crate::proofs::SegmentRows::room_ranges, crate::proofs::SegmentRows::sizes_and_offsets, crate::proofs::SegmentRows::flag_sets, crate::proofs::SegmentRows::pages_shared, crate::proofs::SegmentRows::entries, crate::proofs::SegmentRows::segment_pairs))]
pub fn worked_limits()
    ensures spans { CodeSpans }
    ensures sizes { ImageSizes }
    ensures ranges { RoomRanges }
    ensures file { SizesAndOffsets }
    ensures flags { FlagSets }
    ensures pages { PagesShared }
    ensures entries { Entries }
    ensures pairs { SegmentPairs }
{}

/// Does nothing: its clauses are worked rows, the segments that program headers become.
#[tactic(auto, using(crate::proofs::SegmentRows::whole_pages, crate::proofs::SegmentRows::zero_tails))]
pub fn worked_segments()
    ensures pages { WholePages }
    ensures tails { ZeroTails }
{}
