//! Sources and sinks over streams of the host, one of them interrupted.
use crate::halting::Halting;
use pm_io::{Got, HostSink, HostSource, Put, Sink, Source, Took, put_all};

#[test]
fn a_source_reads_its_stream(rt: HostRuntime) {
    let mut source = HostSource::new(b"abc".as_slice());
    let mut buffer = [0; 2];
    for (answer, bytes) in [
        (Got::Bytes(2), *b"ab"),
        (Got::Bytes(1), *b"cb"),
        (Got::End, *b"cb"),
    ] {
        assert!(rt; source.read(&mut buffer) == answer);
        assert!(rt; buffer == bytes);
    }
}

#[test]
fn a_source_reads_again_when_interrupted(rt: HostRuntime) {
    let mut source = HostSource::new(Halting::new(*b"abc"));
    let mut buffer = [0; 2];
    for byte in *b"abc" {
        assert!(rt; source.read(&mut buffer) == Got::Bytes(1));
        assert!(rt; buffer[0] == byte);
    }
    assert!(rt; source.read(&mut buffer) == Got::Failed);
}

#[test]
fn a_sink_writes_again_when_interrupted(rt: HostRuntime) {
    let mut stream = Halting::new(*b"...");
    let mut sink = HostSink::new(&mut stream);
    assert!(rt; put_all(&mut sink, b"ab") == Put::All);
    assert!(rt; put_all(&mut sink, b"cd") == Put::Failed);
    assert!(rt; stream.bytes == *b"abc");
}

#[test]
fn a_sink_takes_a_whole_stream_and_no_more(rt: HostRuntime) {
    let mut stream = Halting::new(*b"...");
    let mut sink = HostSink::new(&mut stream);
    assert!(rt; put_all(&mut sink, b"abc") == Put::All);
    assert!(rt; put_all(&mut sink, b"d") == Put::Failed);
    assert!(rt; stream.bytes == *b"abc");
}

#[test]
fn a_sink_takes_what_fits(rt: HostRuntime) {
    let mut room = [0; 5];
    let mut sink = HostSink::new(room.as_mut_slice());
    assert!(rt; sink.write(b"abc") == Took::Bytes(3));
    assert!(rt; sink.write(b"def") == Took::Bytes(2));
    assert!(rt; sink.write(b"f") == Took::Failed);
    assert!(rt; room == *b"abcde");
}
