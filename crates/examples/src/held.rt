// Short lists.
use short_lists::ShortList;
use std::test::Fail;

#[test]
fn a_short_list_takes_what_there_is_room_for(rt: HostRuntime) -> Result<(), Fail> {
    let Some(mut list) = ShortList::<u8, 3>::of(b"ab", b'?') else {
        return Err(Fail::new("no room for two of three"));
    };
    let two = (list.len(), list.is_full());
    let third = (list.push(b'c'), list.is_full());
    let fourth = list.push(b'd');
    assert!(rt;
        two == (2, false)
            && third == (Some(2), true)
            && fourth == None
            && list.as_slice() == b"abc".as_slice()
            && ShortList::<u8, 3>::of(b"abcd", b'?').is_none()
    );
    Ok(())
}
