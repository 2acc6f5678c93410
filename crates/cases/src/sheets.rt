// What a sheet of the tests states.
use sheet::fault::SheetFault;
use sheet::problem::SheetProblem;
use sheet::reader::read;

pub(crate) fn stated(sheet: &[u8]) -> Result<SheetProblem, SheetFault> {
    let mut problem = SheetProblem::empty();
    read(sheet, &mut problem)?;
    Ok(problem)
}
