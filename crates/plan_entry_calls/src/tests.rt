// That there can be space: `Space::new` makes vectors, and no clause says that memory is left.
use crate::{Limits, Space};
use std::test::Fail;

#[test]
fn space_is_made(rt: HostRuntime) -> Result<(), Fail> {
    let space = Space::new(
        rt.alloc(),
        Limits {
            commands: 2,
            glyphs: 3,
            clips: 5,
            rectangles: 7,
            regions: 11,
            index_words: 13,
        },
    )?;
    assert_eq!(rt; space.rects.len(), 28);
    assert_eq!(rt; space.regions.len(), 44);
    assert_eq!(rt; space.words.len(), 13);
    assert_eq!(rt; space.boxes.len(), 40);
    assert_eq!(rt; space.below.len(), 5);
    assert_eq!(rt; space.items.len(), 4);
    assert_eq!(rt; space.item_boxes.len(), 8);
    assert_eq!(rt; space.glyph_items.len(), 3);
    assert_eq!(rt; space.draft_rects.len(), 28);
    assert_eq!(rt; space.work.len(), 7);
    assert_eq!(rt; space.spare.len(), 7);
    assert_eq!(rt; space.draft_regions.len(), 44);
    assert_eq!(rt; space.draft_words.len(), 13);
    Ok(())
}
