// What no clause says: that files are there, and calls that succeed.
use flow_files::{FileShelf, StdSink};
use flow_text::{ReadStop, Shelf, ShelfStop, read_all, write_all};
use std::alloc::Global;
use std::env;
use std::process::Abort;
use std::test::Fail;

fn write_file(shelf: &mut impl Shelf, name: &str) -> Result<(), Fail> {
    shelf.create(name).map_err(|_| "not created")?;
    write_all(shelf, b"kept")?;
    shelf.finish().map_err(|_| "not finished")?;
    // What isn't finished leaves the name as it is.
    shelf.create(name).map_err(|_| "not created again")?;
    write_all(shelf, b"lost")?;
    Ok(())
}

fn read_back(
    rt: &impl Abort,
    alloc: Global,
    shelf: &mut impl Shelf,
    name: &str,
) -> Result<(), Fail> {
    shelf.open(name).map_err(|_| "not opened")?;
    let bytes = read_all(alloc, shelf, 100)?;
    assert!(rt; bytes.as_slice() == b"kept".as_slice());
    assert!(rt; shelf.open("no such file") == Err(ShelfStop::Fault));
    Ok(())
}

fn use_folder(
    rt: &impl Abort,
    alloc: Global,
    shelf: &mut impl Shelf,
    folder: &str,
) -> Result<(), Fail> {
    shelf.open(folder).map_err(|_| "the folder isn't opened")?;
    assert!(rt; read_all(alloc, shelf, 100) == Err(ReadStop::Fault));
    // The unfinished file is given up with the next one, and a folder is no file that can be written.
    assert!(rt; shelf.create(folder) == Err(ShelfStop::Fault));
    Ok(())
}

fn use_shelf(
    rt: &impl Abort,
    alloc: Global,
    shelf: &mut impl Shelf,
    folder: &str,
) -> Result<(), Fail> {
    let name = format!(in alloc; "{folder}/flow_text_real_files")?;
    write_file(shelf, &name)?;
    read_back(rt, alloc, shelf, &name)?;
    use_folder(rt, alloc, shelf, folder)
}

#[test]
fn real_files_are_read_back(rt: HostRuntime) -> Result<(), Fail> {
    let folder = env::temp_dir(&rt)?;
    let folder = folder.to_str().ok_or("the folder's name is no text")?;
    let mut shelf = FileShelf::new(rt.alloc(), &rt);
    use_shelf(&rt, rt.alloc(), &mut shelf, folder)
}

#[test]
fn the_standard_output_takes_a_line(rt: HostRuntime) -> Result<(), Fail> {
    let mut sink = StdSink::new(&rt);
    write_all(&mut sink, b"printed\n")?;
    Ok(())
}
