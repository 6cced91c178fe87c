// The store: pages that come up after any stop. Words lie in pages as eight bytes each, the highest first; a selector bit says which of the two
// twins of a table page counts; the geometry says where each page lies. It does not know what the words mean.
#![tactic(auto)]

pub mod bytes;
pub mod places;
pub mod selectors;

ghost use Rattle.pages.specs.Commit.{CommitAtomic, BlankKept};

// A page has so many words, and so many bytes.
pub const PAGE_WORDS: usize = 64;

pub const PAGE_LEN: usize = 512;

// Whatever is kept: a commit that is cut off anywhere, with any of the writes that waited there, half there or not, leaves all as before or all
// as after; before the header is written all as before, and after the last flush all as after.
pub fn commit_atomic()
    ensures { CommitAtomic }
{}

// Pages of zeros keep the first image, so a new file is a house at once.
pub fn blank_kept()
    ensures { BlankKept }
{}

#[cfg(test)]
mod tests {
    use crate::bytes::{TooShort, load, store};
    use crate::places::Geometry;
    use crate::selectors::{bit, next_touched, touch};
    use std::test::Fail;

    #[test]
    fn words_come_back(rt: HostRuntime) {
        let words = [1, 0x0123_4567_89ab_cdef, u64::MAX];
        let mut page = [7; 25];
        assert_eq!(rt; store(&words, &mut page), Ok(()));
        assert_eq!(rt; page[7], 1);
        assert_eq!(rt; page[8], 0x01);
        assert_eq!(rt; page[15], 0xef);
        assert_eq!(rt; page[24], 7);
        let mut back = [0; 3];
        assert_eq!(rt; load(&page, &mut back), Ok(()));
        assert_eq!(rt; back, words);
        assert_eq!(rt; load(&page, &mut [0; 4]), Err(TooShort));
    }

    #[test]
    fn a_touched_page_is_found(rt: HostRuntime) {
        let counting = [0, 1 << 5];
        let mut coming = counting;
        assert_eq!(rt; next_touched(&counting, &coming, 0, u64::MAX), None);
        touch(&counting, &mut coming, 69);
        touch(&counting, &mut coming, 69);
        touch(&counting, &mut coming, 128);
        assert_eq!(rt; bit(&coming, 69), 0);
        assert_eq!(rt; next_touched(&counting, &coming, 0, u64::MAX), Some(69));
        assert_eq!(rt; next_touched(&counting, &coming, 0, 69), None);
        assert_eq!(rt; next_touched(&counting, &coming, 70, 128), None);
    }

    // Of a device, how many bodies it has and where the last one lies.
    #[test]
    fn every_region_fits(rt: HostRuntime) -> Result<(), Fail> {
        for (pages, bodies, last) in [
            (256, 128, 238),
            (1000, 500, 844),
            (1 << 20, 1 << 19, 661_566),
        ] {
            let Some(geometry) = Geometry::of(pages) else {
                return Err(Fail::new("a device of this size is refused"));
            };
            assert_eq!(rt; geometry.body_place(bodies - 1), Some(last));
            assert_eq!(rt; geometry.body_place(bodies), None);
        }
        assert!(rt; Geometry::of(255).is_none());
        assert!(rt; Geometry::of((1 << 20) + 1).is_none());
        Ok(())
    }
}
