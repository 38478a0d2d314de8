// What runs over memory answer: commands, an input without lines, a buffer that is too short, words that are no command, and notices.
use iri_run_calls::irikit_run;

#[test]
fn runs(rt: HostRuntime) {
    let mut out = [b'.'; 64];
    let mut out_len = 9;
    let input = b"http://a/b\n../c\n%\n";
    let status = irikit_run(rt.alloc(), b"canon uri", input, &mut out, &mut out_len);
    assert!(rt; status == 1 && out_len == 31);
    assert!(rt; out.starts_with(b"ok http://a/c\nbad invalid path\n..."));
    let status = irikit_run(
        rt.alloc(),
        b"canon uri scheme",
        b"http://a:80\n\n",
        &mut out,
        &mut out_len,
    );
    assert!(rt; status == 0 && out_len == 13 && out.starts_with(b"ok http://a/\n\nbad"));
    let status = irikit_run(
        rt.alloc(),
        b"robots uri bot scheme",
        b"http://a:80\nu x\n",
        &mut out,
        &mut out_len,
    );
    assert!(rt; status == 0 && out_len == 17 && out.starts_with(b"allow http://a/x\n"));
    let status = irikit_run(rt.alloc(), b"canon uri", b"", &mut out, &mut out_len);
    assert!(rt; status == 3);
}

#[test]
fn rooms(rt: HostRuntime) {
    let mut out_len = 9;
    let input = b"http://a/b\n../c\n../d\n";
    let status = irikit_run(rt.alloc(), b"canon uri", input, &mut [0; 28], &mut out_len);
    assert!(rt; status == 0 && out_len == 28);
    let mut out = [b'.'; 27];
    let status = irikit_run(rt.alloc(), b"canon uri", input, &mut out, &mut out_len);
    assert!(rt; status == 5 && out_len <= 27 && out[out_len..].iter().all(|b| *b == b'.'));
    assert!(rt; b"ok http://a/c\nok http://a/d\n".starts_with(&out[..out_len]));
}

#[test]
fn words(rt: HostRuntime) {
    let mut out_len = 9;
    for words in [
        &b""[..],
        b"canon",
        b"canon  uri",
        b"canon uri ",
        b"canon uri scheme ",
        b"canon uri schemes",
        b"expand uri scheme x",
        b"robots uri scheme bot",
        b"robots uri bot scheme x",
        b"robots uri",
        b"robots uri Example/1",
        b"gen uri 0",
        b"gen uri 01",
        b"gen uri 100001",
        b"gen url 1",
        b"--help uri",
        b"--helps",
        b"canon \xff",
    ] {
        let status = irikit_run(rt.alloc(), words, b"a:\n", &mut [], &mut out_len);
        assert!(rt; status == 2 && out_len == 0);
    }
}

// Notices are written whole or not at all.
#[test]
fn notices(rt: HostRuntime) {
    let mut out_len = 9;
    let mut out = [b'.'; 64];
    let status = irikit_run(rt.alloc(), b"--version", b"a:\n", &mut out, &mut out_len);
    assert!(rt;
        status == 0 && out_len > 7 && out_len < 64 && out[out_len..].iter().all(|b| *b == b'.')
    );
    assert!(rt; out.starts_with(b"irikit "));
    let mut short = [b'.'; 8];
    let status = irikit_run(rt.alloc(), b"--version", b"", &mut short, &mut out_len);
    assert!(rt; status == 5 && out_len == 0 && short == [b'.'; 8]);
    let status = irikit_run(rt.alloc(), b"--help", b"", &mut short, &mut out_len);
    assert!(rt; status == 5 && out_len == 0 && short == [b'.'; 8]);
}
