// The bytes that a rewrite exchanges, put into the image and taken out again.
ghost use Rattle.std.specs.Prelude.{◌≡◌, length};
ghost use Rattle.std.specs.Fn.{FnOnceReturnsAt, FnOnceTakesAt};
ghost use Rattle.sectors.specs.Laws.Rewriting.Changed.{SideBytesFit};
ghost use Rattle.sectors.specs.Laws.Rewriting.Exchanged.{Exchangeable, exchanged};

use crate::Exchange;

impl Exchange {
    // Writes the new bytes into the image.
    pub(crate) fn put_new(&self, hfe: &mut [u8])
        requires { SideBytesFit self.now.bytes (length hfe.old) }
        ensures { hfe.new ≡ exchanged hfe.old self.now }
    {
        self.bytes.put_bytes(hfe, &self.new);
    }

    // What a look at the image with the new bytes tells; after it the image is the one before.
    pub(crate) fn with_new<T, F: FnOnce(&[u8]) -> T>(&self, hfe: &mut [u8], look: F) -> T
        requires { Exchangeable hfe.old self.now × FnOnceTakesAt F.FnOnce look (exchanged hfe.old self.now) }
        ensures { FnOnceReturnsAt F.FnOnce look (exchanged hfe.old self.now) result × (hfe.new ≡ hfe.old) }
    {
        self.put_new(hfe);
        let told = look(hfe);
        self.bytes.put_bytes(hfe, &self.old);
        told
    }
}
