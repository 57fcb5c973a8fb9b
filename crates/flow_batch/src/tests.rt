//! What records make of balances.

use crate::records::{Posting, line, posted};
use std::test::Fail;

#[test]
fn a_record_is_applied_or_refused(rt: HostRuntime) {
    let key = b"k1".as_slice();
    assert_eq!(rt; posted(2, key, None, b"k1M10"), Posting::Applied(Some(10)));
    assert_eq!(rt; posted(2, key, Some(10), b"k1N4"), Posting::Refused);
    assert_eq!(rt;
        posted(2, key, Some(10), b"k1+7"),
        Posting::Applied(Some(17))
    );
    assert_eq!(rt; posted(2, key, Some(5), b"k1-9"), Posting::Refused);
    assert_eq!(rt; posted(2, key, Some(3), b"k1X3"), Posting::Applied(None));
    assert_eq!(rt; posted(2, key, Some(3), b"k1+07"), Posting::Refused);
    assert_eq!(rt; posted(2, key, Some(3), b"k2+7"), Posting::Refused);
}

#[test]
fn a_new_master_sets_its_amount(rt: HostRuntime) -> Result<(), Fail> {
    let master = line(rt.alloc(), b"k1", 17)?;
    assert_eq!(rt; master.as_slice(), b"k1M17".as_slice());
    Ok(())
}
