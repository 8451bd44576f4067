// The functions that C calls (include/usbfs_iso.h). A record is lent as the bytes of its image, numbers come back in a
// lent slice, and every wrong use is refused with its number. None of the exported functions demands anything.
#![tactic(auto)]

mod calls;
mod facts;
mod open;
