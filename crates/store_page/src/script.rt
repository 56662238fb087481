//! What the page does by itself: it shows any document of the store's file once a reader chooses that file.

/// The script of the page. It reads parts of the file and sends nothing.
pub const SCRIPT: &str = "\
<script>
'use strict';
(() => {
  const MOST = 4096;
  const part = id => document.getElementById(id);
  const say = text => { part('said').textContent = text; };
  const read = async (file, from, to) => {
    const bytes = await file.slice(from, to).arrayBuffer();
    if (bytes.byteLength !== to - from) throw new Error('the file is too short');
    return new DataView(bytes);
  };
  // Numbers of seven bits a byte, the lowest first; the last byte has 128 added.
  const numbers = (view) => {
    let place = 0;
    const next = () => {
      for (let number = 0, scale = 1; place < view.byteLength && scale < 2 ** 53; scale *= 128) {
        const byte = view.getUint8(place++);
        number += (byte % 128) * scale;
        if (byte >= 128) return number;
      }
      throw new Error('the index is broken');
    };
    return { next, place: () => place };
  };
  // The entries of a run of the index: each has documents, and bytes of what is below.
  const entries = (view) => {
    const { next } = numbers(view);
    const found = [];
    const count = next();
    let [id, byte] = count ? [next(), next()] : [0, 0];
    for (let i = 0; i < count; i++) {
      const entry = { id, byte, end: id + next(), last: byte + next() };
      found.push(entry);
      [id, byte] = [entry.end, entry.last];
    }
    return found;
  };
  // Where the file ends: tantivy's directory adds a text, its length and the number 1337.
  const storeEnd = async (file) => {
    if (file.size < 28) throw new Error('the file is shorter than a footer');
    const view = await read(file, file.size - 8, file.size);
    return view.getUint32(4, true) === 1337 ? file.size - 8 - view.getUint32(0, true) : file.size;
  };
  const open = async (file) => {
    const end = await storeEnd(file) - 28;
    if (end < 0) throw new Error('the file is shorter than a footer');
    const footer = await read(file, end, end + 28);
    const version = footer.getUint32(0, true);
    if (version < 1 || version > 3) throw new Error('unknown store version ' + version);
    if (footer.getUint8(12)) throw new Error('the blocks are compressed');
    const offset = Number(footer.getBigUint64(4, true));
    if (offset > end) throw new Error('index offset is past the body');
    const { next, place } = numbers(await read(file, offset, Math.min(end, offset + 1024)));
    const ends = Array.from({ length: Math.min(next(), 64) }, next);
    const store = { file, ends, first: offset + place(), documents: 0 };
    if (ends.length) store.documents = entries(await read(file, store.first, store.first + ends[0])).pop().end;
    return store;
  };
  // The block that has a document: from the top layer down, the first entry that ends past it.
  const seek = async ({ file, first, ends }, id) => {
    let [base, from, to] = [first, 0, ends[0]];
    for (let layer = 0; ; layer++) {
      const entry = entries(await read(file, base + from, base + to)).find(one => id < one.end);
      if (!entry) throw new Error('the index is broken');
      if (layer === ends.length - 1) return entry;
      [base, from, to] = [first + ends[layer], entry.byte, entry.last];
    }
  };
  // Where a document begins and ends in the file, by the table of its block; nothing if it is damaged.
  const place = async (store, id) => {
    const block = await seek(store, id);
    if (block.last - block.byte < 4) return null;
    const count = (await read(store.file, block.last - 4, block.last)).getUint32(0, true);
    const table = block.last - 4 * (count + 1);
    const at = table + 4 * (id - block.id);
    if (table < block.byte || id - block.id >= count) return null;
    const view = await read(store.file, at, at + 8);
    const from = block.byte + view.getUint32(0, true);
    const to = id - block.id + 1 < count ? block.byte + view.getUint32(4, true) : table;
    return from <= to && to <= table ? [from, to] : null;
  };
  const isSign = sign => sign >= ' ' || [9, 10, 13].includes(sign.charCodeAt(0));
  // Text if the bytes are UTF-8 without control signs, and else hexadecimal.
  const shown = (bytes, isCut) => {
    try {
      const text = new TextDecoder('utf-8', { fatal: true, ignoreBOM: true }).decode(bytes, { stream: isCut });
      if ([...text].every(isSign)) return text;
    } catch { /* The bytes are no UTF-8. */ }
    return Array.from(new Uint8Array(bytes), byte => byte.toString(16).padStart(2, '0')).join(' ');
  };
  for (const beginning of document.querySelectorAll('pre.hex')) {
    const digits = beginning.textContent.match(/../g) || [];
    const bytes = Uint8Array.from(digits, digit => parseInt(digit, 16));
    beginning.textContent = shown(bytes.buffer, beginning.classList.contains('cut'));
  }
  let store = null;
  const show = async () => {
    const word = part('number').value;
    part('shown').textContent = '';
    if (!store) return say('Choose the file of the store first.');
    const id = Number(word);
    const isNumber = word !== '' && id >= 0 && id < store.documents;
    if (!isNumber) return say('The store has ' + store.documents + ' documents, numbered from 0.');
    const found = await place(store, id);
    if (!found) return say('Document ' + id + ' is damaged.');
    const [from, to] = found;
    const cut = Math.min(to, from + MOST);
    say('Document ' + id + ' has ' + (to - from) + ' bytes' + (cut < to ? '; the first ' + MOST + ' are:' : ':'));
    part('shown').textContent = shown((await read(store.file, from, cut)).buffer, cut < to);
  };
  const tried = call => call().catch(error => say(error.message));
  const take = file => tried(async () => {
    store = null;
    store = await open(file);
    const other = file.size === Number(part('other').dataset.bytes) ? '' : ' It is not the file that this page shows.';
    say(file.name + ' has ' + store.documents + ' documents.' + other);
    if (part('number').value !== '') await show();
  });
  part('file').addEventListener('change', event => event.target.files.length && take(event.target.files[0]));
  part('number').addEventListener('change', () => tried(show));
  part('other').addEventListener('submit', event => { event.preventDefault(); tried(show); });
  addEventListener('dragover', event => event.preventDefault());
  addEventListener('drop', event => {
    event.preventDefault();
    if (event.dataTransfer.files.length) take(event.dataTransfer.files[0]);
  });
  part('other').hidden = false;
})();
</script>
";
