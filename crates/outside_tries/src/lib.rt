#![tactic(auto)]

#[cfg(test)]
mod tests {
    use frames::frame::Frame;
    use kept::size::Size;
    use outside::counting::counted;
    use runs::call::Call;
    use std::test::Fail;

    const DIGEST: &[u8] =
        b"size=4\nkept=3\ntook=3\nseen=4\ngain=3\ntold=3\nplace=0\nworth=1\nframe=7\nmarks=0000000000000000\nlook=0\nlane=3\ntail=0\nhead=0\nside=1\nplace=1\nworth=1\nframe=1\nmarks=0000000000000003\nlook=0\nlane=0\ntail=0\nhead=0\nside=0\nplace=2\nworth=1\nframe=7\nmarks=0000000000000000\nlook=0\nlane=3\ntail=0\nhead=0\nside=1\n";

    // as in `cases_run`: the tests of each crate have their own
    const RECORD: &[u8] =
        b"frame=1\nmarks=0000000000000003\nlook=0\nlane=0\ntail=0\nhead=0\nside=0\n";

    fn seventh() -> Frame {
        Frame {
            number: 7,
            lane: 3,
            side: 1,
            ..Frame::default()
        }
    }

    // Four frames come after the clear, one of them in the text.
    fn shift() -> [Call<'static>; 7] {
        let offer = Call::Offer(seventh());
        [
            offer,
            Call::Clear,
            offer,
            Call::Text(RECORD),
            Call::Look(0),
            offer,
            offer,
        ]
    }

    // Four frames come after the clear, one of them in the text, and three may stand together.
    #[test]
    fn counts_since_the_clear(rt: HostRuntime) -> Result<(), Fail> {
        let calls = shift();
        assert_eq!(rt; counted(Size::new(4)?, 5, 3, &calls, &mut []), 3);
        Ok(())
    }

    // The same shift, and the digest of it.
    #[test]
    fn prints_since_the_clear(rt: HostRuntime) -> Result<(), Fail> {
        let mut calls = [Call::Print; 8];
        calls[..7].copy_from_slice(&shift());
        let mut sheet = [0; 512];
        assert_eq!(rt; counted(Size::new(4)?, 5, 3, &calls, &mut sheet), 3);
        assert!(rt; sheet.starts_with(DIGEST));
        Ok(())
    }
}
