// The count sheet, for C. A slice is a pointer and a length. include/woddirme.h declares it.
#![tactic(auto)]

ghost use Rattle.text.specs.Print.{Placed};
ghost use Rattle.sheet.specs.CountSheet.{count_sheet};

// Puts the answer to `sheet` at the front of `out` and answers its length (count_sheet). Where `out` has
// too little room it stays as it was, and the answer is 0.
#[unsafe(no_mangle)]
pub extern "C" fn woddirme_count_sheet(sheet: &[u8], out: &mut [u8]) -> usize
    ensures { Placed out.old out.new 0 result (count_sheet sheet.now) }
{
    sheet::count_sheet(sheet, out)
}
