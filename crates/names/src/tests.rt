use crate::entries::Names;
use std::test::Fail;

// A header's data: the length of its name, and one byte over and over.
fn header(long: u8, byte: u8) -> [u8; 2048] {
    let mut data = [byte; 2048];
    data[0] = long;
    data
}

// Names of 1, 40, 0 and 41 bytes.
#[test]
fn lengths(rt: HostRuntime) -> Result<(), Fail> {
    let mut names = Names::new(rt.alloc())?;
    names.note(257, &header(1, b'a'));
    names.note(511, &header(40, b'b'));
    names.note(258, &header(0, b'c'));
    names.note(510, &header(41, b'd'));
    assert_eq!(rt; names.name(511), Some([b'b'; 40].as_slice()));
    assert_eq!(rt;
        [
            names.is_there(257),
            names.is_there(258),
            names.is_there(510),
        ],
        [true, false, false]
    );
    assert_eq!(rt;
        [
            names.find(b"a"),
            names.find(&[b'b'; 40]),
            names.find(&[b'b'; 39]),
            names.find(&[]),
        ],
        [Some(257), Some(511), None, None]
    );
    Ok(())
}

// Objects 256, 257, 511 and 512.
#[test]
fn objects(rt: HostRuntime) -> Result<(), Fail> {
    let mut names = Names::new(rt.alloc())?;
    names.put(256, b"x");
    names.put(257, b"low");
    names.put(511, b"high");
    names.put(512, b"x");
    names.forget(256);
    names.forget(512);
    assert_eq!(rt;
        [names.find(b"low"), names.find(b"high"), names.find(b"x")],
        [Some(257), Some(511), None]
    );
    names.put(257, &[b'x'; 41]);
    names.put(257, b"");
    names.put(511, b"x");
    // by name: the borrow checker takes no literal inside an Option yet
    let (low, x) = (*b"low", *b"x");
    assert_eq!(rt; names.name(257), Some(low.as_slice()));
    assert_eq!(rt; names.name(511), Some(x.as_slice()));
    Ok(())
}

// Two alike at the ends.
#[test]
fn alike(rt: HostRuntime) -> Result<(), Fail> {
    let mut names = Names::new(rt.alloc())?;
    names.put(257, b"name");
    names.put(300, b"names");
    names.put(511, b"name");
    assert_eq!(rt;
        [
            names.two_alike(),
            names.taken(257, b"name"),
            names.taken(511, b"name"),
        ],
        [true, true, true]
    );
    names.forget(257);
    assert_eq!(rt;
        [
            names.two_alike(),
            names.taken(257, b"name"),
            names.taken(511, b"name"),
        ],
        [false, true, false]
    );
    names.clear();
    assert_eq!(rt; names.find(b"names"), None);
    Ok(())
}
